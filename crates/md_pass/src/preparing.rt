// What a pass takes memory for before a device leaves its list.
ghost use Rattle.std.specs.Prelude.{◌≡◌, ◌≤◌, IfOk, length};
ghost use Rattle.md_collect.specs.Collecting.{ArePlanned};
ghost use Rattle.md_pass.specs.Preparing.{IsPreparedFor};

use crate::joined::Joined;
use crate::pass::Pass;
use crate::places::places_in_turn;
use crate::readings::{count_readers, first_memory, readings_of};
use crate::source_reading::Reading;
use md_bitmap::Chunks;
use md_cert::NoMemory;
use md_collect::{Collector, Reports, batch_of};
use std::alloc::Global;

/// What a pass takes memory for before a device leaves its list.
#[derive(Drop)]
pub(crate) struct Preparation {
    pub(crate) collector: Collector,
    pub(crate) chunks: Chunks,
    /// How many slots the plan has.
    pub(crate) slots: u32,
    /// What each source reads that has a slot.
    pub(crate) readings: Vec<Reading>,
    /// How many chunks each reads in a turn at most.
    pub(crate) most: usize,
    /// Memory for chunks that are written together.
    pub(crate) joined: Joined,
    /// Memory for the reports of each one's first turn.
    pub(crate) waiting: Vec<Reports>,
    /// The places at which their devices leave the list, one after another.
    pub(crate) places: Vec<usize>,
}

/// Prepares what a pass needs.
pub(crate) fn prepare(alloc: Global, pass: &Pass<'_>) -> Result<Preparation, NoMemory>
    requires planned { ArePlanned pass.now.chunks pass.now.plan.now.slots }
    ensures { IfOk result (IsPreparedFor pass.now.plan.now.slots pass.now.chunks pass.now.offset pass.now.sources.now) }
{
    let chunks = pass.chunks;
    let slots = pass.plan.slots.as_slice();
    let many = slots.len() as u32;
    let collector = Collector::new(alloc, pass.plan, chunks, pass.offset)?;
    let most = batch_of(chunks, count_readers(slots, pass.sources));
    let readings = readings_of(alloc, slots, pass.sources, chunks, most)?;
    let joined = Joined::none(alloc)?;
    let waiting = first_memory(alloc, readings.as_slice(), chunks, most)?;
    let places = places_in_turn(alloc, readings.as_slice())?;
    Ok(Preparation {
        collector,
        chunks,
        slots: many,
        readings,
        most,
        joined,
        waiting,
        places,
    })
}
