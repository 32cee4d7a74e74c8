//! Consistent plans.

ghost use Rattle.std.specs.Prelude.{◌≡◌, length};
ghost use Rattle.dep_iter.specs.Tasks.{all_tasks};
ghost use Rattle.dep_iter.specs.Consistent as consistent;
ghost use Rattle.dep_iter.specs.Consistent.{HasCounts, IsConsistent};

use crate::counts::Counts;
use plan_core::Plan;
use std::marker::Model;

/// A plan that is consistent, with its counts. Contracts see it as the plan; it stores no edge.
pub struct Matched {
    plan: Plan,
    counts: Counts,
}

impl Drop for Matched {
    fn drop(self) {
        let Matched {
            plan: _plan,
            counts: _counts,
        } = self;
    }
}

impl Model for Matched {
    ghost use Rattle.plan_core.specs.declared.plan.Plan.{Plan};
    ghost use Rattle.term_core.specs.contracts.expr.Expr as expr;
    ghost use Rattle.term_core.specs.contracts.body.Block as block;
    ghost use Rattle.std.specs.Coded.{codes};

    ghost Value = { Plan };

    ghost coded = { Prim.hlevel (codes, expr.the_row.coded, block.the_row.coded) };

    ghost use Rattle.dep_iter.specs.Consistent.{HasCounts, IsConsistent};

    ghost view = { λ m. m.plan };

    ghost invariant = { λ m. IsConsistent m.plan × HasCounts m.plan m.counts };
}

impl Matched {
    /// A plan that was found to be consistent, with its counts.
    pub fn trusted(plan: Plan, counts: Counts) -> Matched
        requires consistent { IsConsistent plan }
        requires counts { HasCounts plan counts }
        ensures { result ≡ plan }
    {
        Matched { plan, counts }
    }

    /// The plan.
    pub fn plan(&self) -> &Plan
        ensures same { result.now ≡ self.now }
        ensures consistent { IsConsistent self.now }
    {
        &self.plan
    }

    /// A law: a matched plan is consistent.
    pub fn plan_is_consistent(&self)
        ensures { IsConsistent self.now }
    {
        let _ = &self.plan;
    }

    /// How many tasks it has.
    pub fn tasks(&self) -> u64
        ensures { result ≡ length (all_tasks self.now) }
    {
        self.counts.tasks
    }

    /// How many of its tasks have no edge into them. A run begins with these, so a search for them may stop after this
    /// many.
    pub fn roots(&self) -> u64
        ensures { result ≡ length (consistent.roots self.now) }
    {
        self.counts.roots
    }

    /// How many edges it has, including those of CTL flows.
    pub fn edges(&self) -> u64
        ensures { result ≡ length (consistent.all_in self.now) }
    {
        self.counts.edges
    }

    /// How many of its edges carry a tile.
    pub fn data_edges(&self) -> u64
        ensures { result ≡ length (consistent.all_data self.now) }
    {
        self.counts.data_edges
    }

    /// How many write-backs it has.
    pub fn writes(&self) -> u64
        ensures { result ≡ length (consistent.all_writes self.now) }
    {
        self.counts.writes
    }
}
