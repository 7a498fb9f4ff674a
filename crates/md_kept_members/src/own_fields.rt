// A member's own fields of its superblock, as they are stored next.
ghost use Rattle.std.specs.Prelude.{◌≡◌};
ghost use Rattle.md_members.specs.Members.{reads_log};
ghost use Rattle.md_kept_members.specs.OwnFields.{is_write_mostly, kept_shift, stored_next, with_list};

use md_badblocks::BadSet;
use md_super::{FEATURE_BAD_BLOCKS, Superblock};

// `WriteMostly1` of `md_p.h`, in `devflags`.
const WRITE_MOSTLY: u8 = 1;

/// A superblock beside which these bad blocks were read, as it is stored next.
pub(crate) fn stored_next(v: Superblock, bad: &BadSet) -> Superblock
    ensures { result ≡ stored_next bad.now v }
{
    let mut next = v;
    next.bblog_shift = kept_shift(&next);
    next.feature_map = with_list(next.feature_map, bad);
    next
}

/// The feature map, whose BAD_BLOCKS tells whether the log lists bad blocks.
pub(crate) fn with_list(feature_map: u32, bad: &BadSet) -> u32
    ensures { result ≡ with_list bad.now feature_map }
{
    if bad.runs().is_empty() {
        feature_map & !FEATURE_BAD_BLOCKS
    } else {
        feature_map | FEATURE_BAD_BLOCKS
    }
}

// The shift of the log where it was read. Where it was not, it holds nothing, and is stored without one.
fn kept_shift(v: &Superblock) -> u8
    ensures { result ≡ kept_shift v.now }
{
    if reads_log(v) { v.bblog_shift } else { 0 }
}

// Whether the log is read: the superblock lists bad blocks, and has a log.
fn reads_log(v: &Superblock) -> bool
    ensures { result ≡ reads_log v.now }
{
    v.feature_map & FEATURE_BAD_BLOCKS != 0 && v.has_bad_block_log()
}

/// Whether the member is read only where no other can serve.
pub fn is_write_mostly(v: &Superblock) -> bool
    ensures { result ≡ is_write_mostly v.now }
{
    v.devflags & WRITE_MOSTLY != 0
}
