// What the mirror keeps of a member.
use md_assembly::MemberState;
use md_badblocks::BadSet;
use md_bitmap::{BitmapHeader, Marks};
use md_super::Superblock;
use std::marker::Model;

/// A member, but for its device. Of the superblock the member's own fields count, as they are stored
/// next; those of the array are shared.
#[derive(Drop)]
pub struct Member {
    /// As it is stored next, but for the array's fields. Its recovery_offset is the sure offset: of a recovering member, every
    /// sector of the array before it that the member does not list holds what the array holds, whether its chunk is marked or not.
    pub superblock: Superblock,
    /// Its bitmap's header, as it was read.
    pub header: BitmapHeader,
    /// The marks that are on its device, as far as is known.
    pub stored: Marks,
    /// The sectors of its device that its log lists.
    pub bad: BadSet,
    pub state: MemberState,
    /// Its superblock has to be stored.
    pub due: bool,
    /// In sectors of the array, up to where it is rebuilt: a recovering member lacks what is marked, and what this has not passed.
    pub offset: u64,
    /// The recovery_offset on its device, as far as is known.
    pub stored_offset: u64,
}

impl Model for Member {
    ghost use Rattle.md_kept_members.specs.View.{MemberView};

    ghost Value = { MemberView };

    ghost view = { λ m. record {
      superblock = m.superblock;
      header = m.header;
      stored = m.stored;
      bad = m.bad;
      state = m.state;
      due = m.due;
      offset = m.offset;
      stored_offset = m.stored_offset;
    } };
}
