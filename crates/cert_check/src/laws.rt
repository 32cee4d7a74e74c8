//! Laws of chains, cycles and certificates.

ghost use Rattle.std.specs.Prelude.{◌≡◌, ◌↔◌, [], ℕ, List, length};
ghost use Rattle.ptg_base.specs.Task.{Task};
ghost use Rattle.plan_core.specs.declared.plan.Plan.{Plan};
ghost use Rattle.coll_data.specs.Data.{Data};
ghost use Rattle.dep_iter.specs.Tasks.{all_tasks};
ghost use Rattle.dep_iter.specs.Consistent.{IsConsistent};
ghost use Rattle.flow_meaning.specs.Answer.{answer, trapped};
ghost use Rattle.chain_cert.specs.Greatest.{IsGreatestOrder};
ghost use Rattle.chain_cert.specs.declared.certificate.Certificate.{Certificate};
ghost use Rattle.chain_cert.specs.Certificates.{IsCertificate};
ghost use Rattle.chain_cert.specs.Chains.{HasNoCycle, IsCycle};
ghost use Rattle.chain_exists.specs.Completing.{IsComplete};
ghost use Rattle.chain_cert.specs.Finding.{IsAccepted};
ghost use Rattle.chain_cert.specs.Printed.{IsPrintedCycle};

/// A law: a job has, with its data and weights, at most one certificate.
pub fn one_certificate()
    ensures { (P : Plan) (G : Data) (ws : List ℕ) (c d : Certificate) → IsConsistent P → IsCertificate P G ws c
        → IsCertificate P G ws d → c ≡ d }
{}

/// A law: the printed cycle is a cycle, whichever tasks ran.
pub fn the_printed_cycle_is_a_cycle()
    ensures { (P : Plan) (ran cycle : List Task) → IsConsistent P → IsPrintedCycle P ran cycle → IsCycle P cycle }
{}

/// A law: a job is complete if and only if it has no cycle and no task traps.
pub fn a_job_is_complete_without_cycle_and_trap()
    ensures { (P : Plan) (G : Data) → IsConsistent P → IsComplete (answer P G) ↔ ((trapped P G ≡ []) × HasNoCycle P) }
{}

/// A law: what the checkers check holds of every certificate.
pub fn the_checkers_accept_certificates()
    ensures { (P : Plan) (G : Data) (ws : List ℕ) (c : Certificate) → IsConsistent P → IsCertificate P G ws c
        → IsAccepted P ws c }
{}

/// A law: a greatest legal order has all tasks if and only if there is no cycle.
pub fn a_greatest_order_is_whole_without_cycle()
    ensures { (P : Plan) (ts : List Task) → IsConsistent P → IsGreatestOrder P ts
        → (length ts ≡ length (all_tasks P)) ↔ HasNoCycle P }
{}
