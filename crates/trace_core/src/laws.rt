//! Laws of traces.

ghost use Rattle.std.specs.Prelude.{◌≡◌, List, ℕ};
ghost use Rattle.plan_core.specs.declared.plan.Plan.{Plan};
ghost use Rattle.coll_data.specs.Data.{Data};
ghost use Rattle.trace_core.specs.declared.fault.TraceFault.{TraceFault};
ghost use Rattle.trace_core.specs.Faults.{IsTraceFault};

/// A law: a text has at most one first fault.
pub fn a_text_has_one_first_fault()
    ensures { (P : Plan) (G : Data) (text : List ℕ) (f g : TraceFault) → IsTraceFault P G text f
        → IsTraceFault P G text g → f ≡ g }
{}
