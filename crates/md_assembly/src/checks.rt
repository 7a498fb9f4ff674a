// The checks that compare members with one another, each over all members before the next.
ghost use Rattle.std.specs.Prelude.{◌≡◌, ◌==◌, ◌↔◌, IsTrue, position};
ghost use Rattle.md_assembly.specs.Faults.{HasOtherGeometry, IsChecked, IsStranger, NoneBeforePlace, chunk_size};

use crate::fault::AssembleFault;
use md_members::MemberInfo;

// The most members of an array.
const MAX_MEMBERS: usize = 64;

/// The checks that need no freshest superblock.
pub(crate) fn check_members(members: &[MemberInfo]) -> Result<(), AssembleFault>
    ensures { IsChecked members.now 6 result }
{
    check_count(members)?;
    check_sets(members)?;
    check_numbers(members)?;
    check_bitmaps(members)?;
    check_geometry(members)
}

fn check_count(members: &[MemberInfo]) -> Result<(), AssembleFault>
    ensures { IsChecked members.now 2 result }
{
    if members.is_empty() {
        return Err(AssembleFault::Empty);
    }
    if members.len() > MAX_MEMBERS {
        return Err(AssembleFault::TooMany);
    }
    Ok(())
}

fn check_sets(members: &[MemberInfo]) -> Result<(), AssembleFault>
    requires { NoneBeforePlace members.now 3 }
    ensures { IsChecked members.now 3 result }
{
    for (i, member) in members.iter().enumerate() {
        if is_stranger(&members[0], member) {
            return Err(AssembleFault::Stranger(i));
        }
    }
    Ok(())
}

fn is_stranger(first: &MemberInfo, member: &MemberInfo) -> bool
    ensures { IsTrue result ↔ IsStranger first.now member.now }
{
    member.superblock.set_uuid != first.superblock.set_uuid
}

fn check_numbers(members: &[MemberInfo]) -> Result<(), AssembleFault>
    requires { NoneBeforePlace members.now 4 }
    ensures { IsChecked members.now 4 result }
{
    for (j, member) in members.iter().enumerate() {
        if let Some(i) = position_of(member.superblock.dev_number, &members[..j]) {
            return Err(AssembleFault::DoubleNumber(i, j));
        }
    }
    Ok(())
}

// The index of the first member with a device number.
fn position_of(dev_number: u32, members: &[MemberInfo]) -> Option<usize>
    ensures { result ≡ position (λ m. m.superblock.dev_number == dev_number) members.now }
{
    members
        .iter()
        .position(|member| member.superblock.dev_number == dev_number)
}

fn check_bitmaps(members: &[MemberInfo]) -> Result<(), AssembleFault>
    requires { NoneBeforePlace members.now 5 }
    ensures { IsChecked members.now 5 result }
{
    for (i, member) in members.iter().enumerate() {
        if member.header.is_none() {
            return Err(AssembleFault::NoBitmap(i));
        }
    }
    Ok(())
}

fn check_geometry(members: &[MemberInfo]) -> Result<(), AssembleFault>
    requires { NoneBeforePlace members.now 6 }
    ensures { IsChecked members.now 6 result }
{
    for (i, member) in members.iter().enumerate() {
        if has_other_geometry(&members[0], member) {
            return Err(AssembleFault::Geometry(i));
        }
    }
    Ok(())
}

fn has_other_geometry(first: &MemberInfo, member: &MemberInfo) -> bool
    ensures { IsTrue result ↔ HasOtherGeometry first.now member.now }
{
    member.superblock.size != first.superblock.size
        || member.superblock.raid_disks != first.superblock.raid_disks
        || chunk_size(member) != chunk_size(first)
}

// The bytes of a chunk, where the member has a bitmap.
fn chunk_size(member: &MemberInfo) -> Option<u32>
    ensures { result ≡ chunk_size member.now }
{
    member.header.map(|header| header.chunksize)
}
