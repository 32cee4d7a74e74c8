//! Laws of greatest legal orders.

ghost use Rattle.std.specs.Prelude.{List, ◌≡◌, []};
ghost use Rattle.ptg_base.specs.Lists.{IsIn};
ghost use Rattle.ptg_base.specs.Task.{Task};
ghost use Rattle.plan_core.specs.declared.plan.Plan.{Plan};
ghost use Rattle.flow_meaning.specs.Order.{IsLegalOrder};
ghost use Rattle.chain_cert.specs.Greatest.{IsGreatestOrder};
ghost use Rattle.coll_data.specs.Data.{Data};
ghost use Rattle.dep_iter.specs.Consistent.{IsConsistent};
ghost use Rattle.flow_meaning.specs.Answer.{ran, trapped};
ghost use Rattle.list_lemmas.specs.Counting.{HasSameMembers};

/// A law: a greatest legal order has each task that some legal order has.
pub fn no_legal_order_has_more()
    ensures { (P : Plan) (ts us : List Task) (t : Task) → IsGreatestOrder P ts → IsLegalOrder P us → IsIn t us
        → IsIn t ts }
{}

/// A law: if no task traps, a greatest legal order has the tasks that run, each once.
pub fn a_greatest_order_has_the_tasks_that_run()
    ensures { (P : Plan) (G : Data) (ts : List Task) → IsConsistent P → trapped P G ≡ [] → IsGreatestOrder P ts
        → HasSameMembers ts (ran P G) }
{}
