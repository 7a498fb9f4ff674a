// Superblocks that were read, and which of them belong together.
ghost use Rattle.std.specs.Prelude.{◌≡◌, position};
ghost use Rattle.std.specs.List.{fold, list_any};
ghost use Rattle.std.specs.Str.{bytes_eq};
ghost use Rattle.md_assembly.specs.Assembled.{tells_otherwise};
ghost use Rattle.md_examine_commands.specs.ScanText.{decider, doubts, fresher, is_doubted, is_fresher, is_same_array, is_twin, is_undoubted, tells_other};

use md_assembly::state_of;
use md_super::Superblock;
use uuid::Uuid;

/// The superblock of an image.
#[derive(Drop)]
pub struct Seen<'a> {
    pub name: &'a str,
    pub superblock: Superblock,
}

/// Whether two identifiers are the same.
pub(crate) fn same_id(a: &Uuid, b: &Uuid) -> bool
    ensures { result ≡ bytes_eq a.now b.now }
{
    a == b
}

/// Whether it is of the array with this superblock.
pub(crate) fn is_same_array(v: &Superblock, seen: &Seen<'_>) -> bool
    ensures { result ≡ is_same_array v.now seen.now }
{
    same_id(&v.set_uuid, &seen.superblock.set_uuid)
}

/// Whether it is of the same device as this superblock, whatever its number: no two devices have one device UUID.
pub(crate) fn is_twin(v: &Superblock, seen: &Seen<'_>) -> bool
    ensures { result ≡ is_twin v.now seen.now }
{
    is_same_array(v, seen) && same_id(&v.device_uuid, &seen.superblock.device_uuid)
}

fn is_fresher(best: &Superblock, seen: &Seen<'_>) -> bool
    ensures { result ≡ is_fresher best.now seen.now }
{
    is_same_array(best, seen) && best.events < seen.superblock.events
}

// Of two of an array the one with more events, and where they have as many the first.
fn fresher<'a>(best: &'a Superblock, seen: &'a Seen<'_>) -> &'a Superblock
    ensures { result.now ≡ fresher best.entry.now seen.entry.now }
{
    if is_fresher(best, seen) {
        &seen.superblock
    } else {
        best
    }
}

// The superblock with the most events among the first one and those of its array that follow, and of several the first.
fn freshest<'a>(first: &'a Superblock, rest: &'a [Seen<'_>]) -> &'a Superblock
    ensures { result.now ≡ fold fresher first.entry.now rest.entry.now }
{
    let mut best = first;
    for seen in rest {
        best = fresher(best, seen);
    }
    best
}

fn tells_otherwise(v: &Superblock, other: &Superblock, device: &Superblock) -> bool
    ensures { result ≡ tells_otherwise v.now other.now device.now }
{
    state_of(v, device).is_active()
        && other.role_of(device.dev_number) != v.role_of(device.dev_number)
}

fn tells_other(v: &Superblock, other: &Superblock, seen: &Seen<'_>) -> bool
    ensures { result ≡ tells_other v.now other.now seen.now }
{
    is_same_array(v, seen) && tells_otherwise(v, other, &seen.superblock)
}

fn tells_other_of_some(v: &Superblock, other: &Superblock, all: &[Seen<'_>]) -> bool
    ensures { result ≡ list_any (tells_other v.now other.now) all.now }
{
    all.iter().any(|seen| tells_other(v, other, seen))
}

fn doubts(all: &[Seen<'_>], v: &Superblock, seen: &Seen<'_>) -> bool
    ensures { result ≡ doubts all.now v.now seen.now }
{
    is_same_array(v, seen)
        && seen.superblock.events == v.events
        && state_of(v, &seen.superblock).is_in_sync()
        && tells_other_of_some(v, &seen.superblock, all)
}

fn is_doubted(all: &[Seen<'_>], v: &Superblock) -> bool
    ensures { result ≡ is_doubted all.now v.now }
{
    all.iter().any(|seen| doubts(all, v, seen))
}

fn is_undoubted(all: &[Seen<'_>], best: &Superblock, seen: &Seen<'_>) -> bool
    ensures { result ≡ is_undoubted all.now best.now seen.now }
{
    is_same_array(best, seen)
        && seen.superblock.events == best.events
        && !is_doubted(all, &seen.superblock)
}

fn first_undoubted(all: &[Seen<'_>], best: &Superblock) -> Option<usize>
    ensures { result ≡ position (is_undoubted all.now best.now) all.now }
{
    all.iter().position(|seen| is_undoubted(all, best, seen))
}

/// The superblock that decides of which device has which role, as in an assembly. The array is that of the first superblock,
/// which the rest follows in the list of all.
pub(crate) fn decider<'a>(
    first: &'a Superblock,
    rest: &'a [Seen<'_>],
    all: &'a [Seen<'_>],
) -> &'a Superblock
    ensures { result.now ≡ decider all.entry.now (fold fresher first.entry.now rest.entry.now) }
{
    let best = freshest(first, rest);
    match first_undoubted(all, best) {
        Some(place) => &all[place].superblock,
        None => best,
    }
}
