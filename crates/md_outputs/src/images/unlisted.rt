// Of copies of which the logs do not list all that they lack it is said that later commands need their maps, too.
use md_assembly::state_of;
use md_badblocks::BadSet;
use md_images::{Access, Images};
use md_members::{MemberInfo, read_member};
use md_streams::{Output, put_name};
use md_words::{ArrayCommand, Command, Request};
use std::alloc::Global;
use std::io::Write;

/// The images of a rebuild, in their order, but for the one that is rebuilt: its name is left empty. None of another command.
pub fn rebuilt_from<'a, F>(alloc: Global, parsed: &Result<Request<'a>, F>) -> Option<Vec<&'a str>> {
    let Ok(request) = parsed else {
        return None;
    };
    let Command::Array(ArrayCommand::Rebuild { member, .. }) = request.command else {
        return None;
    };
    let mut names = Vec::new(alloc);
    for (place, name) in request.images.iter().enumerate() {
        names
            .push(if place == member as usize { "" } else { *name })
            .ok()?;
    }
    Some(names)
}

/// Says on `err` of which of these images the logs do not list all that they lack, where their members are in sync. The images are
/// looked at.
pub fn tell_unlisted<I: Images, E: Write>(
    alloc: Global,
    names: &[&str],
    lacking: &[BadSet],
    images: &mut I,
    err: &mut E,
) {
    if lacking.iter().all(|missing| missing.is_empty()) {
        return;
    }
    let freshest = freshest_of(alloc, images, names);
    for (name, missing) in names.iter().zip(lacking) {
        if is_unlisted(alloc, images, &freshest, name, missing) {
            let _ = tell(name, err);
        }
    }
}

// The member on one of these images whose superblock has the most events.
fn freshest_of<I: Images>(alloc: Global, images: &mut I, names: &[&str]) -> Option<MemberInfo> {
    let mut freshest = None;
    for name in names {
        if let Some(member) = member_of(alloc, images, name) {
            if is_newer(&member, &freshest) {
                freshest = Some(member);
            }
        }
    }
    freshest
}

fn is_newer(member: &MemberInfo, than: &Option<MemberInfo>) -> bool {
    match than {
        Some(other) => other.superblock.events < member.superblock.events,
        None => true,
    }
}

// The member on an image, if there is one and it can be read. The name may be left empty.
fn member_of<I: Images>(alloc: Global, images: &mut I, name: &str) -> Option<MemberInfo> {
    if name.is_empty() {
        return None;
    }
    let Ok(mut device) = images.get(name, Access::Look) else {
        return None;
    };
    let read = read_member(alloc, &mut device);
    images.put(name, device);
    read.ok()
}

// None where the output fails.
fn tell<E: Write>(name: &str, err: &mut E) -> Option<()> {
    write!(err, "mdcli: ").ok()?;
    put_name(&mut Output::new(&mut *err), name).ok()?;
    writeln!(
        err,
        ": its log does not list all that its map lacks: later commands need the map, too; \
         leave it out of `write`, `serve`, `re-add` and a kernel's array, which take none"
    )
    .ok()
}

// Whether the image is one of a member in sync whose log does not list all sectors of the array that the image lacks, or that is not
// known.
fn is_unlisted<I: Images>(
    alloc: Global,
    images: &mut I,
    freshest: &Option<MemberInfo>,
    name: &str,
    missing: &BadSet,
) -> bool {
    if name.is_empty() || missing.is_empty() {
        return false;
    }
    match member_of(alloc, images, name) {
        Some(member) => is_in_sync(&member, freshest) && lacks_unlisted(&member, missing),
        None => true,
    }
}

// Whether a member is in sync as the freshest superblock says, where one is had.
fn is_in_sync(member: &MemberInfo, freshest: &Option<MemberInfo>) -> bool {
    match freshest {
        Some(freshest) => state_of(&freshest.superblock, &member.superblock).is_in_sync(),
        None => true,
    }
}

// Whether the copy of a member lacks a sector of the array that the member does not list.
fn lacks_unlisted(member: &MemberInfo, missing: &BadSet) -> bool {
    let first = member.superblock.data_offset;
    let end = first.saturating_add(member.superblock.size);
    for run in missing.runs() {
        let (start, behind) = (run.start.max(first), run.end().min(end));
        if start < behind && !lists_all(&member.bad, start, behind) {
            return true;
        }
    }
    false
}

// Whether one run of the list has all these sectors: its runs are maximal.
fn lists_all(bad: &BadSet, start: u64, end: u64) -> bool {
    bad.runs()
        .iter()
        .any(|run| run.start <= start && end <= run.end())
}
