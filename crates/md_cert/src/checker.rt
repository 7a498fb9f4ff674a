// The checker of plans.
ghost use Rattle.std.specs.Prelude.{◌≡◌, length};
ghost use Rattle.md_cert.specs.Assignments.{Least};
ghost use Rattle.md_cert.specs.Plans.{IsCertified};
ghost use Rattle.md_cert.specs.Verdicts.{IsVerdict};

use crate::coverage::{first_forbidden, first_uncovered};
use crate::plan::{Certificate, Plan};
use crate::rising::{chunks_rise, slots_rise};
use crate::rounds::{first_double, first_late};
use crate::short_set::certifies;
use crate::table::Table;
use crate::verdict::Verdict;

/// Whether a plan, whoever made it, is one of the table with as few rounds as any, as its certificate
/// shows. If not, the answer is the first fault, at its first place in the plan or, for Uncovered, in the
/// table. It works in `lent`, whatever that holds, and takes no memory.
pub fn check(table: &Table, plan: &Plan, certificate: &Certificate, lent: &mut [u32]) -> Verdict
    requires { length lent.old ≡ plan.now.rounds }
    ensures verdict { IsVerdict table.now plan.now certificate.now result }
    ensures certified { result ≡ Verdict.Yes → IsCertified table.now plan.now certificate.now }
    ensures least { result ≡ Verdict.Yes → Least table.now plan.now.rounds }
{
    let rows = table.rows();
    let slots = plan.slots.as_slice();
    if !slots_rise(slots) || !chunks_rise(certificate.chunks.as_slice()) {
        return Verdict::NotRising;
    }
    if let Some(chunk) = first_forbidden(rows, slots) {
        return Verdict::Forbidden(chunk);
    }
    if let Some(chunk) = first_uncovered(rows, slots) {
        return Verdict::Uncovered(chunk);
    }
    if let Some((source, round)) = first_double(slots, lent) {
        return Verdict::DoubleSlot(source, round);
    }
    if let Some(chunk) = first_late(slots, plan.rounds) {
        return Verdict::RoundTooLate(chunk);
    }
    if !certifies(rows, plan, certificate) {
        return Verdict::NotShort;
    }
    Verdict::Yes
}
