//! What holds of tables, plans and certificates by their definitions. The functions do nothing: their
//! contracts are the theorems.

ghost use Rattle.std.specs.Prelude.{◌≡◌, ◌<◌, ℕ, List};
ghost use Rattle.md_cert.specs.Assignments.{HasRounds, IsAssignment, IsShort, Least};
ghost use Rattle.md_cert.specs.Plans.{IsCertified};
ghost use Rattle.md_cert.specs.Tables.{IsTable};
ghost use Rattle.md_cert.specs.Verdicts.{IsVerdict};
ghost use Rattle.md_cert.specs.declared.plan.Certificate.{Certificate};
ghost use Rattle.md_cert.specs.declared.plan.Plan.{Plan};
ghost use Rattle.md_cert.specs.declared.table.Row.{Row};
ghost use Rattle.md_cert.specs.declared.verdict.Verdict.{Verdict};

/// Where some chunks are short for n rounds, every assignment of the table has more rounds.
pub fn short_set()
    ensures { (table : List Row) (chunks : List ℕ) (n : ℕ) → IsTable table → IsShort table chunks n
        → (source : ℕ → ℕ) (m : ℕ) → IsAssignment table source → HasRounds table source m → n < m }
{}

/// A plan with a certificate has as few rounds as any assignment of the table.
pub fn certified_is_least()
    ensures { (table : List Row) (plan : Plan) (certificate : Certificate) → IsTable table
        → IsCertified table plan certificate → Least table plan.rounds }
{}

/// The checker says Yes to each plan with a certificate.
pub fn certified_is_yes()
    ensures { (table : List Row) (plan : Plan) (certificate : Certificate)
        → IsCertified table plan certificate
        → (v : Verdict) → IsVerdict table plan certificate v → v ≡ Verdict.Yes }
{}
