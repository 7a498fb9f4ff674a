// What a device holds.
ghost use Rattle.std.specs.Prelude.{◌≡◌, ◌≤◌, [], length, vec_capacity};
ghost use Rattle.md_notices.specs.Signatures.Finding.{signatures};
ghost use Rattle.md_notices.specs.Signatures.Reading.{IsOnlySearched};
ghost use Rattle.md_state.specs.View.{disk_of, of_disks};
ghost use Rattle.md_notices.specs.Held.Holding.{IsToldOfDevice, HoldsSigned, is_unseen, needs_telling};

use crate::signatures::{Signature, find_signatures, signature_list};
use md_device::Device;
use md_members::{MemberFault, read_super};
use md_super::Superblock;
use std::alloc::Global;

/// What a device holds, as far as it is told.
#[derive(Drop)]
pub enum Held {
    /// Nothing that is known.
    Nothing,
    /// Whatever it is: there was no memory to look.
    Unseen,
    /// Nothing was found, but a read of the device failed.
    Unread,
    /// It is a member of an array: its superblock.
    Member(Superblock),
    /// The first signature that is found on it.
    Signed(Signature),
}

impl Held {
    /// Whether it is told before the device is overwritten: also where nobody knows what it is.
    pub fn needs_telling(&self) -> bool
        ensures { result ≡ needs_telling self.now }
    {
        match self {
            Held::Nothing => false,
            Held::Unseen | Held::Unread | Held::Member(_) | Held::Signed(_) => true,
        }
    }

    /// Whether nobody looked at it, or it could not be read.
    pub fn is_unseen(&self) -> bool
        ensures { result ≡ is_unseen self.now }
    {
        match self {
            Held::Unseen | Held::Unread => true,
            Held::Nothing | Held::Member(_) | Held::Signed(_) => false,
        }
    }
}

/// What a device holds. It is only read. Memory for the look at its signatures is taken before it is used.
#[tactic(auto, using(md_members::proofs::Failed::reads_alone))]
pub fn held_on<D: Device>(alloc: Global, device: &mut D) -> Held
    ensures only_read { IsOnlySearched of_disks (disk_of D.Device device.old) (disk_of D.Device device.new) }
    ensures holds { IsToldOfDevice (disk_of D.Device device.old) (disk_of D.Device device.new) result }
{
    let Ok(list) = signature_list(alloc) else {
        return Held::Unseen;
    };
    match read_super(alloc, device) {
        Ok(own) => Held::Member(own),
        Err(fault) => {
            if fault == MemberFault::NoMemory {
                return Held::Unseen;
            }
            let has_failed = fault == MemberFault::ReadFault;
            signature_on(list, device, has_failed)
        }
    }
}

// The first signature that a device bears of which no superblock was read, perhaps since that failed. It takes no memory.
fn signature_on<D: Device>(list: Vec<Signature>, device: &mut D, has_failed: bool) -> Held
    requires room { (list.items ≡ []) × (length signatures ≤ vec_capacity list) }
    ensures only_read { IsOnlySearched of_disks (disk_of D.Device device.old) (disk_of D.Device device.new) }
    ensures holds { HoldsSigned has_failed (disk_of D.Device device.old) (disk_of D.Device device.new)
        result }
{
    let look = find_signatures(list, device);
    match look.found.as_slice().first() {
        Some(signature) => Held::Signed(*signature),
        None if has_failed || look.has_failed => Held::Unread,
        None => Held::Nothing,
    }
}
