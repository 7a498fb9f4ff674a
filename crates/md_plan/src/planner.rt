// The planner.
ghost use Rattle.std.specs.Prelude.{◌≡◌, ◌≤◌, ◌^◌, length, IfOk};
ghost use Rattle.md_cert.specs.Assignments.{Least};
ghost use Rattle.md_cert.specs.Plans.{IsCertified};
ghost use Rattle.md_cert.specs.Verdicts.{IsVerdict};
ghost use Rattle.md_cert.specs.Tables.{IsTable, orphans_of};
ghost use Rattle.md_cert.specs.declared.verdict.Verdict.{Verdict};

use crate::balance::balance;
use crate::certify::certificate_of;
use crate::classes::{Classes, group};
use crate::give_out::{Given, give_out};
use crate::level::level;
use crate::place::{add_loads, choose_sources};
use md_cert::{ChunkList, NoMemory, Plan, Planned, Row, Slots, Table};
use std::alloc::Global;

/// Plans each chunk of a table that some source has, in the fewest rounds.
///
/// Condition: the table has at most 1,048,576 chunks. `NoMemory` comes only where memory was refused in this call.
pub fn plan(alloc: Global, table: &Table) -> Result<Planned, NoMemory>
    requires { length table.now ≤ 2 ^ 20 }
    ensures certified { IfOk result (λ p. IsCertified table.now p.plan p.certificate) }
    ensures least { IfOk result (λ p. Least table.now p.plan.rounds) }
    ensures orphans { IfOk result (λ p. p.orphans ≡ orphans_of table.now) }
    ensures yes { IfOk result (λ p. (v : Verdict) → IsVerdict table.now p.plan p.certificate v
        → v ≡ Verdict.Yes) }
{
    plan_rows(alloc, table.rows())
}

// The steps of `plan`, over the rows.
fn plan_rows(alloc: Global, rows: &[Row]) -> Result<Planned, NoMemory>
    requires table { IsTable rows.now }
    requires few { length rows.now ≤ 2 ^ 20 }
    ensures certified { IfOk result (λ p. IsCertified rows.now p.plan p.certificate) }
    ensures orphans { IfOk result (λ p. p.orphans ≡ orphans_of rows.now) }
{
    let Classes {
        mut cells,
        class_of,
        totals,
    } = group(alloc, rows)?;
    let classes = cells.len();
    let chosen = choose_sources(rows, &mut cells, &totals);
    level(alloc, &mut cells, chosen, totals.sources)?;
    let mut loads = add_loads(&cells);
    let bound = balance(&mut cells, &mut loads)?;
    let Given { slots, orphans } = give_out(alloc, rows, &class_of, &mut cells, classes)?;
    let certificate = certificate_of(alloc, class_of, rows, bound)?;
    Ok(Planned {
        plan: Plan {
            slots: Slots::from_vec(slots),
            rounds: bound.rounds,
        },
        certificate,
        orphans: ChunkList::from_vec(orphans),
    })
}
