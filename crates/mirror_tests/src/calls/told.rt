// What is told of a rebuild.
use md_cert::Planned;
use md_copy::Rebuilt;

// Of its plans, the rounds of the first and of the last, and the slots of the first; of its orphans, how many there
// are and which is the first.
#[derive(Clone, Copy, PartialEq, Eq)]
pub(crate) struct Told {
    pub(crate) passes: u32,
    pub(crate) plans: usize,
    pub(crate) rounds: (u32, u32),
    pub(crate) slots: usize,
    pub(crate) orphans: (usize, Option<u32>),
}

pub(crate) fn told_of(rebuilt: &Rebuilt) -> Told {
    let plan = rebuilt.plans.first().map(|planned| &planned.plan);
    let last = rebuilt.plans.last().map(|planned| &planned.plan);
    let first_rounds = plan.map_or(0, |plan| plan.rounds);
    let last_rounds = last.map_or(0, |plan| plan.rounds);
    Told {
        passes: rebuilt.passes,
        plans: rebuilt.plans.len(),
        rounds: (first_rounds, last_rounds),
        slots: plan.map_or(0, |plan| plan.slots.as_slice().len()),
        orphans: (rebuilt.orphans.len(), rebuilt.orphans.first().copied()),
    }
}

// What a pass planned.
#[derive(Clone, Copy, PartialEq, Eq)]
pub(crate) struct Planning {
    pub(crate) rounds: u32,
    // Where each of the array's 8 chunks is read; `NOWHERE` where it is not.
    pub(crate) sources: [u8; 8],
    // The rounds of the certificate, and its chunks as bits.
    pub(crate) certificate: (u32, u32),
}

pub(crate) const NOWHERE: u8 = u8::MAX;

pub(crate) const NO_PLAN: Planning = Planning {
    rounds: 0,
    sources: [NOWHERE; 8],
    certificate: (0, 0),
};

fn planning_of(planned: &Planned) -> Planning {
    let mut sources = [NOWHERE; 8];
    for slot in planned.plan.slots.as_slice() {
        if let Some(place) = sources.get_mut(slot.chunk as usize) {
            *place = slot.source;
        }
    }
    let mut bits = 0;
    for chunk in planned.certificate.chunks.as_slice() {
        bits |= 1u32.wrapping_shl(*chunk);
    }
    Planning {
        rounds: planned.plan.rounds,
        sources,
        certificate: (planned.certificate.rounds, bits),
    }
}

// Of the first two passes of a rebuild, if there are two.
pub(crate) fn plans_of(rebuilt: &Rebuilt) -> (Planning, Planning) {
    let first = rebuilt.plans.first().map_or(NO_PLAN, planning_of);
    let second = rebuilt.plans.get(1).map_or(NO_PLAN, planning_of);
    (first, second)
}
