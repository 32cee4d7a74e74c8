//! Laws of the verdict on two texts.

ghost use Rattle.job_stages.specs.Laws.{OneVerdictOfJob, OneVerdict};

/// A law: the text of a JDF and the text of its data denote at most one verdict, and so does a JDF with its data.
pub fn one_verdict()
    ensures texts { OneVerdict }
    ensures job { OneVerdictOfJob }
{}
