// The reports of a turn are handed to the collector.
ghost use Rattle.std.specs.Prelude.{◌≡◌, ◌+◌, ◌≤◌, length};
ghost use Rattle.std.specs.List.{All};
ghost use Rattle.md_collect.specs.Workers.Queues.{slots_read};
ghost use Rattle.md_pass.specs.Handing.{HandsOver, handed};

use md_collect::{Queue, Reports};
use std::mem;
use std::sync::ledger::Ledger;

/// The reports of each queue are handed to the collector. The queue gets those that the collector had, for
/// the sake of their memory: what the collector has and what the queue reads change places at each turn.
pub(crate) fn hand_over<D, L: Ledger, M: Ledger>(
    queues: &mut Vec<Queue<D, L, M>>,
    waiting: &mut Vec<Reports>,
)
    requires as_many { length waiting.old.items ≡ length queues.old.items }
    requires within { All (λ queue. slots_read queue ≤ length queue.chunks.items) queues.old.items }
    ensures { HandsOver queues.old.items queues.new.items waiting.old.items waiting.new.items }
{
    for k in 0..queues.len() {
        let queue = &mut queues[k];
        let reports = &mut waiting[k];
        exchange(queue, reports);
    }
}

// The queue's reports are handed over for others.
fn exchange<D, L: Ledger, M: Ledger>(queue: &mut Queue<D, L, M>, reports: &mut Reports)
    requires { slots_read queue.old ≤ length queue.old.chunks.items }
    ensures queue { queue.new ≡ handed queue.old reports.old }
    ensures reports { reports.new ≡ queue.old.reports }
{
    queue.done += queue.reports.len();
    mem::swap(&mut queue.reports, reports);
}
