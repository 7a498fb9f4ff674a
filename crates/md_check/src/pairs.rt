// Each two members in sync.
ghost use Rattle.std.specs.Prelude.{◌≡◌, ◌<◌, ◌&&◌, ◌++◌, IfOk, OnOk, length, nat_lt};
ghost use Rattle.std.specs.List.{All};
ghost use Rattle.md_check.specs.Differences.{IsEmptySet};
ghost use Rattle.md_collect.specs.Found.{IsPairSized};
ghost use Rattle.md_check.specs.Pairs.{are_in_sync, pair_names, pairs_in_sync, pairs_with};

use md_array::Mirror;
use md_bitmap::Marks;
use md_collect::Pair;
use md_device::Device;
use std::alloc::{AllocError, Global};

/// Each two members in sync, with no chunk yet.
pub(crate) fn pairs_in_sync<D: Device + Drop>(
    alloc: Global,
    mirror: &Mirror<D>,
) -> Result<Vec<Pair>, AllocError>
    ensures names { IfOk result (λ pairs. pair_names pairs.items ≡ pairs_in_sync mirror.now.array) }
    ensures sized { IfOk result (λ pairs. All (IsPairSized mirror.now.array.chunks) pairs.items) }
    ensures empty { IfOk result (λ pairs. All (λ pair. IsEmptySet pair.chunks) pairs.items) }
{
    let mut pairs = Vec::new(alloc);
    for one in 0..mirror.members() {
        add_pairs(alloc, mirror, one, &mut pairs)?;
    }
    Ok(pairs)
}

// Adds each pair of this member and one with a higher index.
fn add_pairs<D: Device + Drop>(
    alloc: Global,
    mirror: &Mirror<D>,
    one: usize,
    pairs: &mut Vec<Pair>,
) -> Result<(), AllocError>
    requires within { one < length mirror.now.array.members }
    requires sized { All (IsPairSized mirror.now.array.chunks) pairs.old.items }
    requires empty { All (λ pair. IsEmptySet pair.chunks) pairs.old.items }
    ensures names { OnOk result (pair_names pairs.new.items
        ≡ pair_names pairs.old.items ++ pairs_with mirror.now.array (length mirror.now.array.members) one) }
    ensures sized { OnOk result (All (IsPairSized mirror.now.array.chunks) pairs.new.items) }
    ensures empty { OnOk result (All (λ pair. IsEmptySet pair.chunks) pairs.new.items) }
{
    for other in 0..mirror.members() {
        if are_compared(mirror, one, other) {
            let chunks = Marks::none(alloc, mirror.chunks().count())?;
            pairs.push(Pair { one, other, chunks })?;
        }
    }
    Ok(())
}

// Whether these two are a pair: both are in sync, and the first has the lower index.
fn are_compared<D: Device + Drop>(mirror: &Mirror<D>, one: usize, other: usize) -> bool
    requires one { one < length mirror.now.array.members }
    requires other { other < length mirror.now.array.members }
    ensures { result ≡ (nat_lt one other && are_in_sync mirror.now.array one other) }
{
    one < other && mirror.state(one).is_in_sync() && mirror.state(other).is_in_sync()
}
