// What a run has of the machine.
use md_badblocks::BadSet;
use md_read_commands::StandIn;
use md_streams::Gaps;
use std::alloc::Global;

/// What each command is given of the machine that it runs on: what starts threads, the memory, the input, the output,
/// who is told of a rebuild or a check, who is asked, and random bytes for a UUID, where there are any. And, of a read that was to
/// fill sectors that are not given, which sectors these are, also where it ended before all were put out, and whether all
/// were. And, of a check, in how many chunks it found members to differ.
///
/// Of the sectors that a read is to put out so many stand already, from the first on, where an earlier one was interrupted:
/// the read goes on behind them. `gaps` has those of them then that were not given to that one.
///
/// `lacking` is what each image lacks by its map, in sectors of the image, in the order in which the images are named.
///
/// An image may count as a device of the array whose superblock can't be read, where the images are only looked at.
#[derive(Drop)]
pub struct Session<'a, T, R: Drop, S: Drop, W, A: Drop> {
    pub rt: &'a T,
    pub alloc: Global,
    pub input: R,
    pub out: S,
    pub watch: &'a W,
    pub asker: A,
    pub random_bytes: Option<[u8; 16]>,
    pub gaps: Option<Gaps>,
    pub is_all_out: bool,
    pub stands: u64,
    pub stand_in: Option<StandIn>,
    pub mismatched: Option<u32>,
    pub lacking: &'a [BadSet],
}
