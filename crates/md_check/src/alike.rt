// Whether all that was read of a window is the same, and whose it is.
ghost use Rattle.std.specs.Prelude.{◌≡◌, ◌<◌, ℕ, MatchOption, false, is_some, length, slice_index_or, true};
ghost use Rattle.std.specs.List.{All};

use crate::reader::Reader;

/// The first reader whose member is in sync.
pub(crate) fn first_read<D>(readers: &[Reader<D>]) -> Option<usize>
    ensures { MatchOption result (All (λ reader. is_some reader.role ≡ false) readers.now)
        (λ k. (k < length readers.now) × ((j : ℕ) (d : _) → j < k → is_some (slice_index_or readers.now j d).role ≡ false)) }
{
    for k in 0..readers.len() {
        if readers[k].role.is_some() {
            return Some(k);
        }
    }
    None
}

/// Whether each reader has noted that what was read of its member is what was read of the first one.
pub(crate) fn are_alike<D>(readers: &[Reader<D>]) -> bool
    ensures { result ≡ true → All (λ reader. reader.alike ≡ true) readers.now }
{
    for k in 0..readers.len() {
        if !readers[k].alike {
            return false;
        }
    }
    true
}
