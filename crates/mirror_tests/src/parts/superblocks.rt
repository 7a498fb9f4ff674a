// What the kernel's formats say of given bytes, worked out by hand.
use crate::checks::same;
use example_members::{put, vault};
use md_super::{SuperFault, checksum, decode};
use std::alloc::Global;
use std::process::Abort;

#[test]
fn checksum_values(rt: HostRuntime) {
    let mut b = [0u8; 4096];
    put(&mut b, 0, &0xffff_ffffu32.to_le_bytes());
    put(&mut b, 4, &2u32.to_le_bytes());
    same(&rt, &"a sum with a carry", checksum(&b, 0), 2);
    put(&mut b, 0, &0xa92b_4efcu32.to_le_bytes());
    put(&mut b, 4, &1u32.to_le_bytes());
    same(&rt, &"of no role", checksum(&b, 0), 0xa92b_4efd);
    put(&mut b, 220, &1u32.to_le_bytes());
    put(&mut b, 256, &0xffffu16.to_le_bytes());
    same(&rt, &"of one role", checksum(&b, 1), 0xa92c_4efd);
    same(&rt, &"the vault's", checksum(&vault(), 2), 0x8ab7_c54f);
}

fn refuses(rt: &impl Abort, alloc: Global, bytes: &[u8; 4096], wanted: SuperFault) {
    same(rt, &"the fault", decode(alloc, bytes).err(), Some(wanted));
}

#[test]
fn decode_order(rt: HostRuntime) {
    let mut b = [0u8; 4096];
    put(&mut b, 0, &0xa92b_4efcu32.to_le_bytes());
    put(&mut b, 4, &1u32.to_le_bytes());
    put(&mut b, 220, &1921u32.to_le_bytes());
    refuses(&rt, rt.alloc(), &b, SuperFault::MaxDev);
    put(&mut b, 220, &1920u32.to_le_bytes());
    refuses(&rt, rt.alloc(), &b, SuperFault::Checksum);
}
