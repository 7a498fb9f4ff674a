// How many sectors members list as bad, and which list more than before.
ghost use Rattle.std.specs.Prelude.{◌≡◌, ◌^◌, ◌<◌};
ghost use Rattle.md_notices.specs.ListedSectors.{all_sector_counts, all_longer_lists, if_more, sector_count_at, sector_count_there, longer_list_at, sector_count};

use crate::noticing::{Asked, MAX_MEMBERS, place_after};
use md_array::Mirror;
use md_badblocks::{BadSet, Run};
use md_device::Device;

// Runs of a set don't overlap, and end by sector 2^54.
fn sector_count(runs: &[Run]) -> u64
    requires { sector_count runs.now < 2 ^ 64 }
    ensures { result ≡ sector_count runs.now }
{
    runs.iter().map(|run| run.len).sum()
}

/// How many sectors a set has.
pub fn count_sectors(bad: &BadSet) -> u64
    ensures { result ≡ sector_count bad.now }
{
    sector_count(bad.runs())
}

fn sector_count_at<D: Device + Drop>(mirror: &Mirror<D>, k: usize) -> u64
    ensures { result ≡ sector_count_at mirror.now.array.members k }
{
    if k >= mirror.members() {
        return 0;
    }
    count_sectors(mirror.bad(k))
}

/// How many sectors the member in each place lists as bad, 0 where there is none.
pub fn members_listing<D: Device + Drop>(mirror: &Mirror<D>) -> [u64; MAX_MEMBERS]
    ensures { result ≡ all_sector_counts mirror.now.array.members }
{
    let mut listed = [0; MAX_MEMBERS];
    for k in 0..MAX_MEMBERS {
        listed[k] = sector_count_at(mirror, k);
    }
    listed
}

fn sector_count_there<D: Device + Drop>(mirror: &Mirror<D>, place: Option<usize>) -> u64
    ensures { result ≡ sector_count_there mirror.now.array.members place }
{
    match place {
        Some(k) => sector_count_at(mirror, k),
        None => 0,
    }
}

fn if_more(before: u64, after: u64) -> Option<u64>
    ensures { result ≡ if_more before after }
{
    if before < after { Some(after) } else { None }
}

fn longer_list_at<D: Device + Drop>(
    was: &[u64; MAX_MEMBERS],
    mirror: &Mirror<D>,
    asked: Asked,
    k: usize,
) -> Option<u64>
    requires { k < 64 }
    ensures { result ≡ longer_list_at was.now mirror.now.array.members asked k }
{
    if_more(
        was[k],
        sector_count_there(mirror, place_after(asked.left, k)),
    )
}

/// Of each place before a command how many sectors its member lists after it, where these are more than before. `was` has
/// how many it listed before the command; the mirror is what it left.
pub fn members_listing_more<D: Device + Drop>(
    was: &[u64; MAX_MEMBERS],
    mirror: &Mirror<D>,
    asked: Asked,
) -> [Option<u64>; MAX_MEMBERS]
    ensures { result ≡ all_longer_lists was.now mirror.now.array.members asked }
{
    let mut more = [None; MAX_MEMBERS];
    for k in 0..MAX_MEMBERS {
        more[k] = longer_list_at(was, mirror, asked, k);
    }
    more
}
