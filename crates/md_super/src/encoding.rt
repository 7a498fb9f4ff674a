// From a superblock to bytes.
ghost use Rattle.std.specs.Prelude.{◌≡◌, ◌≤◌, ◌++◌, length, take};
ghost use Rattle.md_super.specs.Checksum.{checksum_of};
ghost use Rattle.md_super.specs.Encoding.{front_bytes, back_bytes, bytes_with, super_bytes};
ghost use Rattle.md_super.specs.Faults.{NoSuperFault};
ghost use Rattle.md_super.specs.Fits.{FrontFits, RolesFit};
ghost use Rattle.md_super.specs.Format.{IsSuper};
ghost use Rattle.md_super.specs.Merge.{merged};

use crate::groups::{
    put_bitmap_offset, put_counts, put_head, put_log, put_places, put_reshape, put_role_list,
    put_shape, put_zeros,
};
use crate::summing::checksum;
use crate::superblock::Superblock;
use md_format::{put_bytes, put_u32};

impl Superblock {
    /// Writes the superblock's bytes, with their checksum in place of `sb_csum`. Decoding them gives
    /// the other fields back.
    pub fn encode(&self, out: &mut [u8; 4096])
        ensures bytes { out.new ≡ super_bytes self.now }
        ensures fields { IsSuper out.new (record self.now { sb_csum = checksum_of out.new (length self.now.roles) }) }
        ensures sound { NoSuperFault out.new }
    {
        encode_member(self, self, out);
    }
}

/// Writes a member's superblock: the array's fields, the roles among them, as in `shared`, and the
/// member's own as in `own`, with the bytes' checksum in place of `sb_csum`. It takes no memory.
pub fn encode_member(shared: &Superblock, own: &Superblock, out: &mut [u8; 4096])
    ensures bytes { out.new ≡ super_bytes (merged shared.now own.now) }
    ensures fields { IsSuper out.new (record (merged shared.now own.now) { sb_csum = checksum_of out.new (length shared.now.roles) }) }
    ensures sound { NoSuperFault out.new }
{
    let max_dev = shared.roles.max_dev();
    put_front(shared, own, out);
    put_u32(out, 216, 0);
    put_back(shared.roles.as_slice(), out);
    let sum = checksum(out, max_dev);
    put_u32(out, 216, sum);
}

// What stands before the checksum.
fn put_front(shared: &Superblock, own: &Superblock, out: &mut [u8; 4096])
    ensures front { take 216 out.new ≡ front_bytes (merged shared.now own.now) }
    ensures fit { FrontFits (merged shared.now own.now) }
{
    put_head(own, out);
    put_bytes(out, 16, shared.set_uuid.as_bytes());
    put_bytes(out, 32, &shared.set_name);
    put_shape(shared, out);
    put_bitmap_offset(own, out);
    put_reshape(shared, out);
    put_places(own, out);
    put_bytes(out, 168, own.device_uuid.as_bytes());
    put_log(own, out);
    put_counts(shared, out);
}

// What stands after the checksum.
fn put_back(roles: &[u16], out: &mut [u8; 4096])
    requires { length roles.now ≤ 1920 }
    ensures whole { out.new ≡ take 220 out.old ++ back_bytes roles.now }
    ensures fit { RolesFit roles.now }
{
    put_u32(out, 220, roles.len() as u32);
    put_bytes(out, 224, &[0; 32]);
    put_role_list(roles, out);
    put_zeros(out, 256 + 2 * roles.len());
}
