// What standard error is told of what was noticed. No line takes memory.
ghost use Rattle.std.specs.Prelude.{◌≡◌, ◌<◌, ◌++◌, [], option_map, slice_get, if◌then◌else◌};
ghost use Rattle.md_streams.specs.Sink.{PutsOrFails};
ghost use Rattle.md_notices.specs.Lines.{ungiven_text};
ghost use Rattle.md_words.specs.Asks.{ask_of, loss_of, overwritten_by};
ghost use Rattle.md_messages.specs.Telling.{asked_member, asked_text, chunks_lost_if, dropped_at, dropped_line, dropped_lines, each_lines, first_by, first_text, first_unless, has_joined, held_line, held_line_of, listed_text_at, listed_line, listed_lines, member_name, line_of, lists_more, loses_chunks, loss_lines, lost_lines, marked_at, marked_lines, name_in, new_line, noticed_text, parted_at, parted_line, parted_lines, rebuilt_lists_more, rebuilt_place, refused_text, returning_line, target_line, texts, told_text, uncompared_lines, unnamed_at, unnamed_lines, unnamed_unless};
ghost use Rattle.md_messages.specs.Holding.{held_each};
ghost use Rattle.md_messages.specs.Noticed.{asks_first};

use crate::notices::Notices;
use crate::refused_lines::{put_all_failed, put_perhaps_listed};
use crate::unreadable::put_unreadable;
use crate::unready::put_unready;
use md_assembly::MemberState;
use md_images::is_missing;
use md_notices::{
    Held, MAX_MEMBERS, MAX_ROLES, chunks_lost_line, chunks_ungiven_line, dropped_line,
    forgotten_line, held_line, is_place, listed_line, lost_line, marked_line, parted_line,
    standing_line, uncompared_line, ungiven_line, unnamed_line, unread_line, unseen_line,
};
use md_refusals::CommandFault;
use md_streams::{Audience, Sink, SinkFault};
use md_words::{ArrayCommand, Command, Loss, Overwritten};

/// The name in a place, where there is one.
pub(crate) fn name_at<'a>(names: &[&'a str], k: usize) -> Option<&'a str>
    ensures { option_map (λ s. s.now) result ≡ slice_get (texts names.now) k }
{
    if k < names.len() {
        Some(names[k])
    } else {
        None
    }
}

fn name_in<'a>(names: &[&'a str], place: Option<usize>) -> Option<&'a str>
    ensures { option_map (λ s. s.now) result ≡ name_in (texts names.now) place }
{
    match place {
        Some(k) => name_at(names, k),
        None => None,
    }
}

fn put_marked<S: Sink>(
    out: &mut S,
    notices: &Notices,
    names: &[&str],
    k: usize,
) -> Result<(), SinkFault>
    requires { k < 64 }
    ensures { PutsOrFails S.contents S.failed out.old out.new
        (marked_at notices.now (texts names.now) k) result }
{
    if !notices.marked[k] {
        return out.put(b"");
    }
    match name_at(names, k) {
        Some(name) => marked_line(out, name),
        None => out.put(b""),
    }
}

// On which images marks were stored.
fn put_all_marked<S: Sink>(out: &mut S, notices: &Notices, names: &[&str]) -> Result<(), SinkFault>
    ensures { PutsOrFails S.contents S.failed out.old out.new
        (marked_lines (texts names.now) notices.now) result }
{
    for k in 0..MAX_MEMBERS {
        put_marked(out, notices, names, k)?;
    }
    Ok(())
}

// One member in sync is named for all of them.
fn put_parted<S: Sink>(
    out: &mut S,
    notices: &Notices,
    names: &[&str],
    name: &str,
) -> Result<(), SinkFault>
    ensures { PutsOrFails S.contents S.failed out.old out.new
        (parted_line notices.now (texts names.now) name.now) result }
{
    match name_in(names, notices.source) {
        Some(source) => parted_line(out, name, source),
        None => out.put(b""),
    }
}

// Puts out the line on the image that is overwritten, where it has a name.
fn put_parted_of<S: Sink>(
    out: &mut S,
    notices: &Notices,
    names: &[&str],
    name: Option<&str>,
) -> Result<(), SinkFault>
    ensures { PutsOrFails S.contents S.failed out.old out.new
        (line_of (parted_line notices.now (texts names.now)) (option_map (λ s. s.now) name.entry)) result }
{
    match name {
        Some(name) => put_parted(out, notices, names, name),
        None => out.put(b""),
    }
}

fn put_parted_at<S: Sink>(
    out: &mut S,
    notices: &Notices,
    names: &[&str],
    before: Option<usize>,
    k: usize,
) -> Result<(), SinkFault>
    requires { k < 64 }
    ensures { PutsOrFails S.contents S.failed out.old out.new
        (parted_at before notices.now (texts names.now) k) result }
{
    if is_place(before, k) {
        return out.put(b"");
    }
    if !notices.parted[k] {
        return out.put(b"");
    }
    put_parted_of(out, notices, names, name_at(names, k))
}

// Which members were used without those in sync, but for the one that was asked of before.
fn put_all_parted<S: Sink>(
    out: &mut S,
    notices: &Notices,
    names: &[&str],
    before: Option<usize>,
) -> Result<(), SinkFault>
    ensures { PutsOrFails S.contents S.failed out.old out.new
        (parted_lines before (texts names.now) notices.now) result }
{
    for k in 0..MAX_MEMBERS {
        put_parted_at(out, notices, names, before, k)?;
    }
    Ok(())
}

fn put_unnamed<S: Sink>(out: &mut S, notices: &Notices, role: usize) -> Result<(), SinkFault>
    requires { role < 32 }
    ensures { PutsOrFails S.contents S.failed out.old out.new (unnamed_at notices.now role) result }
{
    match notices.unnamed[role] {
        Some(number) => unnamed_line(out, number, role as u16),
        None => out.put(b""),
    }
}

/// Which devices of the array were not named.
pub(crate) fn put_all_unnamed<S: Sink>(out: &mut S, notices: &Notices) -> Result<(), SinkFault>
    ensures { PutsOrFails S.contents S.failed out.old out.new (unnamed_lines notices.now) result }
{
    for role in 0..MAX_ROLES {
        put_unnamed(out, notices, role)?;
    }
    Ok(())
}

fn put_dropped<S: Sink>(
    out: &mut S,
    notices: &Notices,
    names: &[&str],
    k: usize,
) -> Result<(), SinkFault>
    requires { k < 64 }
    ensures { PutsOrFails S.contents S.failed out.old out.new
        (dropped_at notices.now (texts names.now) k) result }
{
    if !notices.dropped[k] {
        return out.put(b"");
    }
    match name_at(names, k) {
        Some(name) => dropped_line(out, name, notices.in_sync, notices.raid_disks),
        None => out.put(b""),
    }
}

// Which members dropped out.
fn put_all_dropped<S: Sink>(out: &mut S, notices: &Notices, names: &[&str]) -> Result<(), SinkFault>
    ensures { PutsOrFails S.contents S.failed out.old out.new
        (dropped_lines (texts names.now) notices.now) result }
{
    for k in 0..MAX_MEMBERS {
        put_dropped(out, notices, names, k)?;
    }
    Ok(())
}

/// The name of the member in a place. A device that joins comes after the others.
pub(crate) fn member_name<'a>(command: Command<'a>, names: &[&'a str], k: usize) -> Option<&'a str>
    ensures { option_map (λ s. s.now) result ≡ member_name (ask_of command.entry) (texts names.now) k }
{
    if k == names.len() {
        command.device()
    } else {
        name_at(names, k)
    }
}

fn put_listed_of<S: Sink>(
    out: &mut S,
    name: &str,
    was: Option<MemberState>,
    by_chunks: bool,
    count: Option<u64>,
) -> Result<(), SinkFault>
    ensures { PutsOrFails S.contents S.failed out.old out.new
        (listed_line was by_chunks count name.now) result }
{
    match count {
        Some(count) => listed_line(out, name, was, by_chunks, count),
        None => out.put(b""),
    }
}

/// Whether whole chunks are listed for a bad sector.
pub(crate) fn loses_chunks(command: Command<'_>) -> bool
    ensures { result ≡ loses_chunks (loss_of (ask_of command.entry)) }
{
    match command.loss() {
        Some(Loss::Chunks) => true,
        Some(Loss::Sectors) | None => false,
    }
}

fn put_listed<S: Sink>(
    out: &mut S,
    notices: &Notices,
    command: Command<'_>,
    names: &[&str],
    k: usize,
) -> Result<(), SinkFault>
    requires { k < 64 }
    ensures { PutsOrFails S.contents S.failed out.old out.new
        (listed_text_at (ask_of command.entry) notices.now (texts names.now) k) result }
{
    match member_name(command, names, k) {
        Some(name) => {
            let by_chunks = loses_chunks(command);
            put_listed_of(
                out,
                name,
                notices.states[k],
                by_chunks,
                notices.more_listed[k],
            )
        }
        None => out.put(b""),
    }
}

// Which members list more sectors as bad than before.
fn put_all_listed<S: Sink>(
    out: &mut S,
    notices: &Notices,
    command: Command<'_>,
    names: &[&str],
) -> Result<(), SinkFault>
    ensures { PutsOrFails S.contents S.failed out.old out.new
        (listed_lines (ask_of command.entry) (texts names.now) notices.now) result }
{
    for k in 0..MAX_MEMBERS {
        put_listed(out, notices, command, names, k)?;
    }
    Ok(())
}

// Whether some member lists more sectors as bad than before.
fn lists_more(notices: &Notices) -> bool
    ensures { result ≡ lists_more notices.now }
{
    notices.more_listed.iter().any(|count| count.is_some())
}

// The place of the member that is rebuilt.
fn rebuilt_place(command: Command<'_>, names: &[&str]) -> usize
    ensures { result ≡ rebuilt_place (ask_of command.entry) (texts names.now) }
{
    match command.member() {
        Some(member) => member as usize,
        None => names.len(),
    }
}

// Whether the member that is rebuilt lists more sectors as bad than before: others may where it got all of the data.
fn rebuilt_lists_more(notices: &Notices, command: Command<'_>, names: &[&str]) -> bool
    ensures { result ≡ rebuilt_lists_more (ask_of command.entry) (texts names.now) notices.now }
{
    let place = rebuilt_place(command, names);
    notices
        .more_listed
        .get(place)
        .copied()
        .unwrap_or(None)
        .is_some()
}

fn put_chunks_lost_if<S: Sink>(out: &mut S, listed: bool) -> Result<(), SinkFault>
    ensures { PutsOrFails S.contents S.failed out.old out.new (chunks_lost_if listed) result }
{
    if listed {
        chunks_lost_line(out)
    } else {
        out.put(b"")
    }
}

fn put_chunks_lost<S: Sink>(out: &mut S, notices: &Notices, listed: bool) -> Result<(), SinkFault>
    ensures { PutsOrFails S.contents S.failed out.old out.new
        (ungiven_text notices.now.lost ++ chunks_lost_if listed) result }
{
    ungiven_line(out, notices.lost)?;
    put_chunks_lost_if(out, listed)?;
    Ok(())
}

// Of a rebuild which sectors no member in sync gives. Of one that loses chunks only where some member lists more, and that chunks were
// not to be lost only where that is the member that is rebuilt.
fn put_loss<S: Sink>(
    out: &mut S,
    command: Command<'_>,
    notices: &Notices,
    names: &[&str],
) -> Result<(), SinkFault>
    ensures { PutsOrFails S.contents S.failed out.old out.new
        (loss_lines (ask_of command.entry) (texts names.now) notices.now) result }
{
    match command.loss() {
        Some(Loss::Sectors) => ungiven_line(out, notices.lost),
        Some(Loss::Chunks) if lists_more(notices) => {
            put_chunks_lost(out, notices, rebuilt_lists_more(notices, command, names))
        }
        Some(Loss::Chunks) | None => out.put(b""),
    }
}

// Of the image that comes back that it was used without those in sync, or that nobody looked at it or could read it.
fn put_returning<S: Sink>(
    out: &mut S,
    notices: &Notices,
    names: &[&str],
    name: Option<&str>,
) -> Result<(), SinkFault>
    ensures { PutsOrFails S.contents S.failed out.old out.new
        (line_of (returning_line notices.now (texts names.now)) (option_map (λ s. s.now) name.entry)) result }
{
    match name {
        Some(name) if notices.held.is_unseen() => put_held(out, name, &notices.held),
        Some(name) => put_parted(out, notices, names, name),
        None => out.put(b""),
    }
}

// What an image holds that is to be overwritten.
fn put_held<S: Sink>(out: &mut S, name: &str, held: &Held) -> Result<(), SinkFault>
    ensures { PutsOrFails S.contents S.failed out.old out.new (held_line name.now held.now) result }
{
    match held {
        Held::Nothing => out.put(b""),
        Held::Unseen => unseen_line(out, name),
        Held::Unread => unread_line(out, name),
        Held::Member(own) => standing_line(out, name, own),
        Held::Signed(signature) => held_line(out, name, signature.text()),
    }
}

fn put_held_at<S: Sink>(
    out: &mut S,
    name: &str,
    each: &[Held],
    place: usize,
) -> Result<(), SinkFault>
    ensures { PutsOrFails S.contents S.failed out.old out.new
        (held_line_of name.now (slice_get each.now place)) result }
{
    if place < each.len() {
        put_held(out, name, &each[place])
    } else {
        out.put(b"")
    }
}

// What each image holds of which an array is made.
fn put_each<S: Sink>(out: &mut S, each: &[Held], names: &[&str]) -> Result<(), SinkFault>
    ensures { PutsOrFails S.contents S.failed out.old out.new (each_lines each.now (texts names.now)) result }
{
    let mut next = 0;
    for place in 0..names.len() {
        if is_missing(names[place]) {
            continue;
        }
        put_held_at(out, names[place], each, next)?;
        next += 1;
    }
    Ok(())
}

fn put_all_held<S: Sink>(out: &mut S, notices: &Notices, names: &[&str]) -> Result<(), SinkFault>
    ensures { PutsOrFails S.contents S.failed out.old out.new
        (each_lines (held_each notices.now.each) (texts names.now)) result }
{
    match &notices.each {
        Some(each) => put_each(out, each.as_slice(), names),
        None => put_each(out, &[], names),
    }
}

// What the image holds that is to be added.
fn put_new<S: Sink>(out: &mut S, notices: &Notices, name: Option<&str>) -> Result<(), SinkFault>
    ensures { PutsOrFails S.contents S.failed out.old out.new
        (line_of (new_line notices.now) (option_map (λ s. s.now) name.entry)) result }
{
    match name {
        Some(name) if notices.own => forgotten_line(out, name),
        Some(name) => put_held(out, name, &notices.held),
        None => out.put(b""),
    }
}

// Of the member that is to be rebuilt that it was used without those in sync.
fn put_rebuilt<S: Sink>(
    out: &mut S,
    notices: &Notices,
    names: &[&str],
    k: usize,
) -> Result<(), SinkFault>
    ensures { PutsOrFails S.contents S.failed out.old out.new
        (target_line notices.now (texts names.now) k) result }
{
    if notices.was_parted(k) {
        put_parted_of(out, notices, names, name_at(names, k))
    } else {
        out.put(b"")
    }
}

// What is said of what a command would overwrite.
#[tactic(auto, unfolding(crate::specs::Telling::first_by))]
fn put_overwritten<S: Sink>(
    out: &mut S,
    notices: &Notices,
    overwritten: Overwritten,
    device: Option<&str>,
    names: &[&str],
) -> Result<(), SinkFault>
    ensures { PutsOrFails S.contents S.failed out.old out.new
        (first_by overwritten (option_map (λ s. s.now) device.entry) (texts names.now) notices.now) result }
{
    match overwritten {
        Overwritten::Nothing => out.put(b""),
        Overwritten::Images => put_all_held(out, notices, names),
        Overwritten::NewDevice => put_new(out, notices, device),
        Overwritten::ReturningDevice => put_returning(out, notices, names, device),
        Overwritten::Member(member) => put_rebuilt(out, notices, names, member as usize),
    }
}

/// What is shown with the question whether a command goes on: what it is asked of, and which chunks would be listed whole. It
/// fails only where the output has failed, as all here does.
#[tactic(auto, unfolding(crate::specs::Telling::asked_text), using(md_streams::proofs::Puts::puts_then))]
pub(crate) fn put_asked<S: Sink>(
    notices: &Notices,
    command: Command<'_>,
    names: &[&str],
    out: &mut S,
) -> Result<(), SinkFault>
    ensures { PutsOrFails S.contents S.failed out.old out.new
        (asked_text (ask_of command.entry) (texts names.now) notices.now) result }
{
    put_first(notices, command, names, out)?;
    chunks_ungiven_line(out, notices.ungiven)?;
    Ok(())
}

// What is said before a command is done, where there is a terminal, and else after it: what it would overwrite.
fn put_first<S: Sink>(
    notices: &Notices,
    command: Command<'_>,
    names: &[&str],
    out: &mut S,
) -> Result<(), SinkFault>
    ensures { PutsOrFails S.contents S.failed out.old out.new
        (first_text (ask_of command.entry) (texts names.now) notices.now) result }
{
    if !notices.asks_first(command) {
        return out.put(b"");
    }
    put_overwritten(out, notices, command.overwrites(), command.device(), names)
}

// The member that was asked of before.
fn asked_member(notices: &Notices, command: Command<'_>) -> Option<usize>
    ensures { result ≡ asked_member (overwritten_by (ask_of command.entry))
        (asks_first (ask_of command.entry) notices.now) }
{
    match command.overwrites() {
        Overwritten::Member(member) if notices.asks_first(command) => Some(member as usize),
        _ => None,
    }
}

// What was noticed, in a line for each image and for each device that was not named. Some of it may have been shown before
// the command was done.
fn put_noticed<S: Sink>(
    out: &mut S,
    notices: &Notices,
    command: Command<'_>,
    names: &[&str],
    audience: Audience,
) -> Result<(), SinkFault>
    ensures { PutsOrFails S.contents S.failed out.old out.new
        (noticed_text audience (ask_of command.entry) (texts names.now) notices.now) result }
{
    put_all_marked(out, notices, names)?;
    put_first_unless(out, notices, command, names, audience)?;
    put_all_parted(out, notices, names, asked_member(notices, command))?;
    put_unnamed_unless(out, notices, command, audience)?;
    Ok(())
}

// Which devices were not named, where that was not shown before.
fn put_unnamed_unless<S: Sink>(
    out: &mut S,
    notices: &Notices,
    command: Command<'_>,
    audience: Audience,
) -> Result<(), SinkFault>
    ensures { PutsOrFails S.contents S.failed out.old out.new
        (unnamed_unless audience (ask_of command.entry) notices.now) result }
{
    if audience.was_shown && command.may_part() {
        return out.put(b"");
    }
    put_all_unnamed(out, notices)
}

fn put_first_unless<S: Sink>(
    out: &mut S,
    notices: &Notices,
    command: Command<'_>,
    names: &[&str],
    audience: Audience,
) -> Result<(), SinkFault>
    ensures { PutsOrFails S.contents S.failed out.old out.new
        (first_unless audience (ask_of command.entry) (texts names.now) notices.now) result }
{
    if audience.was_shown {
        return out.put(b"");
    }
    put_first(notices, command, names, out)
}

// That a check compared nothing.
fn put_uncompared<S: Sink>(
    out: &mut S,
    notices: &Notices,
    command: Command<'_>,
    names: &[&str],
) -> Result<(), SinkFault>
    ensures { PutsOrFails S.contents S.failed out.old out.new
        (uncompared_lines (ask_of command.entry) (texts names.now) notices.now) result }
{
    let Command::Array(ArrayCommand::Check { .. }) = command else {
        return out.put(b"");
    };
    match name_in(names, notices.alone) {
        Some(name) => uncompared_line(out, name),
        None => out.put(b""),
    }
}

// That what an image held is lost, which was added.
fn put_lost<S: Sink>(out: &mut S, command: Command<'_>, audience: Audience) -> Result<(), SinkFault>
    ensures { PutsOrFails S.contents S.failed out.old out.new
        (lost_lines audience (ask_of command.entry)) result }
{
    match command {
        Command::Array(ArrayCommand::Add { device, .. }) if audience.messages.has_advice() => {
            lost_line(out, device)
        }
        _ => out.put(b""),
    }
}

/// All that is said of a command that is done.
pub fn put_told<S: Sink>(
    out: &mut S,
    notices: &Notices,
    command: Command<'_>,
    names: &[&str],
    audience: Audience,
) -> Result<(), SinkFault>
    ensures { PutsOrFails S.contents S.failed out.old out.new
        (told_text audience (ask_of command.entry) (texts names.now) notices.now) result }
{
    put_noticed(out, notices, command, names, audience)?;
    put_all_dropped(out, notices, names)?;
    put_all_listed(out, notices, command, names)?;
    put_loss(out, command, notices, names)?;
    put_uncompared(out, notices, command, names)?;
    put_unreadable(out, command, notices)?;
    put_lost(out, command, audience)?;
    put_unready(out, command, notices)?;
    Ok(())
}

// Whether a command that adds a device came as far as that, though it is refused: the stop and the report come after it.
fn has_joined(fault: &CommandFault) -> bool
    ensures { result ≡ has_joined fault.now }
{
    matches!(fault, CommandFault::Stop(_) | CommandFault::OutputFault)
}

// That what an image held is lost, where a refused command has added it.
fn put_lost_if<S: Sink>(
    out: &mut S,
    command: Command<'_>,
    audience: Audience,
    has_joined: bool,
) -> Result<(), SinkFault>
    ensures { PutsOrFails S.contents S.failed out.old out.new
        (if has_joined then lost_lines audience (ask_of command.entry) else []) result }
{
    if has_joined {
        put_lost(out, command, audience)
    } else {
        out.put(b"")
    }
}

/// All that is said of a command that is refused, after the fault and what to do.
pub fn put_refused<S: Sink>(
    out: &mut S,
    notices: &Notices,
    command: Command<'_>,
    names: &[&str],
    audience: Audience,
    fault: &CommandFault,
) -> Result<(), SinkFault>
    ensures { PutsOrFails S.contents S.failed out.old out.new
        (refused_text audience (ask_of command.entry) (texts names.now) notices.now fault.now) result }
{
    put_noticed(out, notices, command, names, audience)?;
    put_all_failed(out, notices, names)?;
    put_perhaps_listed(out, notices, command, names)?;
    put_lost_if(out, command, audience, has_joined(fault))?;
    Ok(())
}
