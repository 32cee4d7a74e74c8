//! Laws of the marks and of the first fault.

ghost use Rattle.std.specs.Prelude.{◌≡◌, ◌≤◌, length, map};
ghost use Rattle.std.specs.List.{AllByRecursion};
ghost use Rattle.ptg_base.specs.Limits.{most_prefixes, most_tasks};
ghost use Rattle.ptg_base.specs.declared.edge.WriteBack.{WriteBack};
ghost use Rattle.range_space.specs.Sound.{IsSound, prefix_total};
ghost use Rattle.plan_core.specs.declared.plan.Plan.{Plan};
ghost use Rattle.dep_iter.specs.Tasks.{all_tasks};
ghost use Rattle.dep_iter.specs.Consistent.{IsConsistent, all_in, all_items, all_writes};
ghost use Rattle.edge_match.specs.FirstFault.{IsFirstFault};
ghost use Rattle.edge_match.specs.Marks.{AllPass, add_all, marks, nothing, phase_marks};
ghost use Rattle.edge_match.specs.declared.fault.MatchFault.{MatchFault};
ghost use Rattle.edge_match.specs.declared.phase.Phase.TheVariants.{Connecting};

/// A law: the first phase counts all edges into tasks, all items and all places that are written to.
pub fn all_edges_and_items_are_counted()
    ensures { (P : Plan)
        → add_all nothing (phase_marks Connecting P)
        ≡ record { ins = all_in P; items = all_items P; places = map (λ (w : WriteBack). w.place) (all_writes P) } }
{}

/// A law: a plan is consistent if its spaces are sound and within their limits, and all its marks pass.
#[tactic(auto, using(crate::proofs::Consistency::passes_consistent))]
pub fn a_plan_that_passes_is_consistent()
    ensures { (P : Plan) → AllByRecursion IsSound P.spaces → length (all_tasks P) ≤ most_tasks
        → prefix_total P.spaces ≤ most_prefixes → AllPass P nothing (marks P) → IsConsistent P }
{}

/// A law: a consistent plan has no fault.
pub fn a_consistent_plan_has_no_fault()
    ensures { (P : Plan) (f : MatchFault) → IsConsistent P → IsFirstFault P f → ⊥ }
{}
