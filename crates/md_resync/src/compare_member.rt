// Members that agree already are not written.
ghost use Rattle.std.specs.Prelude.{◌≡◌, ◌+◌, ◌/◌, ◌%◌, ◌<◌, ◌≤◌, length, true, false};
ghost use Rattle.md_state.specs.Steps.ReadData.{HoldsData};
ghost use Rattle.md_state.specs.Rests.{Rests};
ghost use Rattle.md_array.specs.Consistency.{IsConsistent};
ghost use Rattle.md_resync.specs.Copying.{IsUnlike};

use md_array::Mirror;
use md_device::Device;

// Where much differs, as in a new array, mostly the first bytes of a run do: no more of it is read then than these.
const FIRST_PIECE: usize = 16 * 1024;

/// Whether member k holds these bytes from this sector of the array on, by a read of it: first of a piece of them, and
/// where that is the same, of the rest. It is not known to hold what can't be read. Takes no memory.
pub(crate) fn compare_member<D: Device + Drop>(
    mirror: &mut Mirror<D>,
    k: usize,
    sector: u64,
    bytes: &[u8],
    held: &mut [u8],
) -> bool
    requires within { k < length mirror.old.array.members }
    requires some { 0 < length bytes.now }
    requires room { length bytes.now ≤ length held.old }
    requires whole { length bytes.now % 512 ≡ 0 }
    requires inside { sector + length bytes.now / 512 ≤ mirror.old.array.chunks.size }
    requires sound { IsConsistent mirror.old }
    ensures rests { Rests mirror.old mirror.new }
    ensures sound { IsConsistent mirror.new }
    ensures holds { result ≡ true → HoldsData mirror.new k sector bytes.now }
    ensures unlike { result ≡ false → IsUnlike k sector bytes.now mirror.old mirror.new }
{
    let (first, rest) = bytes.split_at(bytes.len().min(FIRST_PIECE));
    if !holds(mirror, k, sector, first, held) {
        return false;
    }
    if rest.is_empty() {
        return true;
    }
    holds(mirror, k, sector + first.len() as u64 / 512, rest, held)
}

// Whether member k holds these bytes, by one read of it.
fn holds<D: Device + Drop>(
    mirror: &mut Mirror<D>,
    k: usize,
    sector: u64,
    bytes: &[u8],
    held: &mut [u8],
) -> bool
    requires within { k < length mirror.old.array.members }
    requires some { 0 < length bytes.now }
    requires room { length bytes.now ≤ length held.old }
    requires whole { length bytes.now % 512 ≡ 0 }
    requires inside { sector + length bytes.now / 512 ≤ mirror.old.array.chunks.size }
    requires sound { IsConsistent mirror.old }
    ensures rests { Rests mirror.old mirror.new }
    ensures sound { IsConsistent mirror.new }
    ensures holds { result ≡ true → HoldsData mirror.new k sector bytes.now }
    ensures unlike { result ≡ false → IsUnlike k sector bytes.now mirror.old mirror.new }
{
    let held = &mut held[..bytes.len()];
    mirror.read_data(k, sector, held).is_ok() && *held == *bytes
}
