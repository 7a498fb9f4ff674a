// The partition table of the PC, in the first sector.
ghost use Rattle.std.specs.Prelude.{◌≡◌, ◌<◌, ◌≤◌, ◌+◌, length};
ghost use Rattle.std.specs.List.{list_any};
ghost use Rattle.md_notices.specs.Signatures.Magics.{has_sign, sign_of};
ghost use Rattle.md_notices.specs.Signatures.Partitions.{are_sound, has_mark, has_name, is_boot_sector, is_one_used, is_partition_table, is_sound_entry, is_used_entry};

use crate::signatures::magic::{Magic, has_bytes};
use crate::signatures::signature::Signature;
use crate::signatures::table::magics;

// Whether one of the magic numbers stands in these bytes.
fn bears_one(bytes: &[u8], magics: &[Magic]) -> bool
    ensures { result ≡ list_any (λ m. has_sign bytes.now (sign_of m)) magics.now }
{
    magics.iter().any(|magic| has_bytes(bytes, magic.place as usize, magic.bytes))
}

// Whether a file system of this kind begins with this sector.
fn has_name(bytes: &[u8], signature: Signature) -> bool
    ensures { result ≡ has_name bytes.now signature }
{
    bears_one(bytes, magics(signature))
}

// Whether a file system begins with this sector, which has a mark of its own at the end.
fn is_boot_sector(bytes: &[u8]) -> bool
    ensures { result ≡ is_boot_sector bytes.now }
{
    has_name(bytes, Signature::Ntfs)
        || has_name(bytes, Signature::Exfat)
        || has_name(bytes, Signature::Fat)
}

// Whether the boot indicator of the entry at a place is one that stands there.
fn is_sound_entry(bytes: &[u8], place: usize) -> bool
    requires { place < length bytes.now }
    ensures { result ≡ is_sound_entry bytes.now place }
{
    bytes[place] == 0 || bytes[place] == 0x80
}

// Whether the entry at a place has a type, and is not there to protect a GUID partition table.
fn is_used_entry(bytes: &[u8], place: usize) -> bool
    requires { place + 4 < length bytes.now }
    ensures { result ≡ is_used_entry bytes.now place }
{
    bytes[place + 4] != 0 && bytes[place + 4] != 0xee
}

// Whether each of the four entries is sound.
fn are_sound(bytes: &[u8]) -> bool
    requires { length bytes.now ≡ 512 }
    ensures { result ≡ are_sound bytes.now }
{
    is_sound_entry(bytes, 446)
        && is_sound_entry(bytes, 462)
        && is_sound_entry(bytes, 478)
        && is_sound_entry(bytes, 494)
}

// Whether one of the four entries is used.
fn is_one_used(bytes: &[u8]) -> bool
    requires { length bytes.now ≡ 512 }
    ensures { result ≡ is_one_used bytes.now }
{
    is_used_entry(bytes, 446)
        || is_used_entry(bytes, 462)
        || is_used_entry(bytes, 478)
        || is_used_entry(bytes, 494)
}

// Whether the mark stands at the end.
fn has_mark(bytes: &[u8]) -> bool
    ensures { result ≡ has_mark bytes.now }
{
    has_bytes(bytes, 510, b"\x55\xaa")
}

/// Whether a first sector has a partition table.
pub(crate) fn is_partition_table(bytes: &[u8]) -> bool
    requires { length bytes.now ≡ 512 }
    ensures { result ≡ is_partition_table bytes.now }
{
    if !has_mark(bytes) {
        return false;
    }
    if is_boot_sector(bytes) {
        return false;
    }
    if !are_sound(bytes) {
        return false;
    }
    is_one_used(bytes)
}
