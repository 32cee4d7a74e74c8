//! Laws of the names that are printed of a job: they are those of its plan.

ghost use Rattle.ptg_base.specs.Task.{Task};
ghost use Rattle.coll_data.specs.Data.{Data};
ghost use Rattle.plan_core.specs.declared.plan.Plan.{Plan};
ghost use Rattle.dep_iter.specs.Tasks.{IsTask};
ghost use Rattle.flow_meaning.specs.Answer.{answer};
ghost use Rattle.report_laws.specs.RowNames.{HasClass, HasRowsOf};

/// A law: all names in the answer of a job are those of its plan. The class of each task in its rows is one of the
/// plan's, and the word of each trap is one of its class's. So each of them has a text that is printed.
pub fn answers_have_rows_of_their_plan()
    ensures { (P : Plan) (G : Data) → HasRowsOf P (answer P G) }
{}

/// A law: the class of each task of a job is one of its plan's, so the lines of chains, cycles and levels name it.
pub fn tasks_have_classes_of_their_plan()
    ensures { (P : Plan) (t : Task) → IsTask P t → HasClass P t }
{}
