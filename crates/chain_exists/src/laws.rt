//! Laws of certificates.

ghost use Rattle.std.specs.Prelude.{ℕ, List};
ghost use Rattle.plan_core.specs.declared.plan.Plan.{Plan};
ghost use Rattle.coll_data.specs.Data.{Data};
ghost use Rattle.dep_iter.specs.Consistent.{IsConsistent};
ghost use Rattle.chain_cert.specs.declared.certificate.Certificate.{Certificate};
ghost use Rattle.chain_cert.specs.Certificates.{IsCertificate};
ghost use Rattle.flow_meaning.specs.Answer.{answer};
ghost use Rattle.chain_exists.specs.Fitting.{Fits};

/// A law: a job has a certificate, whatever its data and weights are.
pub fn every_job_has_a_certificate()
    ensures { (P : Plan) (G : Data) (ws : List ℕ) → IsConsistent P → (c : Certificate) × IsCertificate P G ws c }
{}

/// A law: the certificate of a job fits its answer: a chain goes with a complete answer, a cycle with a stall, and
/// `Trapped` with traps.
pub fn a_certificate_fits_the_answer()
    ensures { (P : Plan) (G : Data) (ws : List ℕ) (c : Certificate) → IsConsistent P → IsCertificate P G ws c
        → Fits (answer P G) c }
{}
