//! Laws of the values of ranges.

ghost use Rattle.std.specs.Prelude.{◌≡◌, ℕ, ℤ, IsTrue, List, Some, None, slice_get, if◌then◌else◌};
ghost use Rattle.std.specs.List.{list_all};
ghost use Rattle.ptg_base.specs.Lists.{IsIn};
ghost use Rattle.term_core.specs.Arith.{is_number};
ghost use Rattle.term_core.specs.declared.space.ClassSpace.{ClassSpace};
ghost use Rattle.range_space.specs.Tasks.{tasks};
ghost use Rattle.range_space.specs.Values.{is_within, values};
ghost use Rattle.edge_laws.specs.Numbers.{def_has_numbers};
ghost use Rattle.edge_laws.specs.Steps.{steps_from};

/// A law: the value of a range at an index is the number that many steps from its start, if that is within its end.
pub fn values_are_a_progression()
    ensures { (lo hi step : ℤ) (index : ℕ)
        → slice_get (values lo hi step) index
        ≡ (if is_within hi step (steps_from lo step index) then Some (steps_from lo step index) else None) }
{}

/// A law: the parameters of tasks have 64 bits, if each number in the definitions of their class does.
pub fn parameters_have_64_bits()
    ensures { (s : ClassSpace) (params : List ℤ) → IsTrue (list_all def_has_numbers s.defs) → IsIn params (tasks s)
        → IsTrue (list_all is_number params) }
{}
