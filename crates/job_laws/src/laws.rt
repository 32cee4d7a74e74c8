//! Laws of the verdict on two texts.

ghost use Rattle.job_laws.specs.Laws.{SomeVerdict, SomeVerdictOfJob, JdfIsJudgedAlone, DataFitPlan};
ghost use Rattle.job_laws.specs.Spelled.{NamesAreSpelled, ParametersHave64Bits};

/// A law: the text of a JDF and the text of its data denote a verdict, whatever their bytes are. So does each JDF
/// within the limits of its text, with well made data.
pub fn every_job_has_a_verdict()
    ensures texts { SomeVerdict }
    ensures job { SomeVerdictOfJob }
{}

/// A law: a fault of the JDF's text is the verdict, whatever the data's text is.
pub fn the_jdf_is_judged_alone()
    ensures { JdfIsJudgedAlone }
{}

/// A law: if two texts denote a consistent plan with its data, the data fit the plan.
pub fn the_data_fit_the_plan()
    ensures { DataFitPlan }
{}

/// A law: in a consistent job of two texts, the names of classes are spelled as names, and the parameters of tasks have
/// 64 bits.
pub fn jobs_are_spelled()
    ensures names { NamesAreSpelled }
    ensures params { ParametersHave64Bits }
{}
