// What commands do with an opened array.
ghost use Rattle.std.specs.Prelude.{◌≡◌, IfOk, MatchResult, codes, false, is_some, option_map, true};
ghost use Rattle.md_array.specs.Consistency.{IsConsistent};
ghost use Rattle.md_words.specs.Asks.{array_ask, compares, device_to_add, fills};
ghost use Rattle.md_state.specs.View.{disk_of};
ghost use Rattle.md_commands.specs.Adding.{AddsDevice, KeepsDevice, RefusesJoining};
ghost use Rattle.md_commands.specs.Objects.{plan_shown, summary_shown};
ghost use Rattle.md_refusals.specs.Output.{ShowsText};
ghost use Rattle.md_commands.specs.Planning.{RefusesToPlan, ShowsPlan};
ghost use Rattle.md_commands.specs.ReAdding.{ReAddsDevice, RefusesToReAdd};
ghost use Rattle.md_commands.specs.Rebuilding.{RebuildsArray, RefusesToRebuild};
ghost use Rattle.md_commands.specs.Salvaging.{RefusesToSalvage, SalvagesArray};
ghost use Rattle.md_commands.specs.Stopping.{StopsArrayAfter};
ghost use Rattle.md_read_commands.specs.Filling.{has_put_all};
ghost use Rattle.md_messages.specs.Telling.{texts};
ghost use Rattle.md_cli.specs.Opened.{opened_view};
ghost use Rattle.md_cli.specs.Performing.{Performs, PerformsAdd, PerformsCheck, PerformsReAdd, PerformsReadOn, PerformsRemove, PerformsServe, ReadsFilledOn, ShowsMismatches, ShowsSectors, detail_shown, rebuild_extent, rebuilt_told, salvaged_told, sectors_asked};
ghost use Rattle.md_cli.specs.Streams.{streams_of};

use crate::open::Opened;
use crate::reading_on::{end_output, rest_from, with_earlier};
use crate::session::Session;
use crate::show_short::show_short;
use md_array::Mirror;
use md_commands::{
    RebuildExtent, Returning, add_device, add_device_json, check_members, check_members_json,
    fail_member, list_mismatches, re_add_device, re_add_device_json, rebuild_member,
    rebuild_member_json, remove_member, resync_array, salvage_member, salvage_member_json,
    show_detail, show_detail_json, show_plan, show_plan_json, show_verbose_detail, stop_array,
    stop_array_json, write_array,
};
use md_device::Device;
use md_nbd::ClientWatch;
use md_read_commands::{
    has_put_all, read_array, read_array_filled, read_array_readonly, serve_array,
};
use md_refusals::CommandFault;
use md_serve_commands::serve_writable;
use md_streams::{FillWatch, ReadWatch, Sink, Source, Watch};
use md_words::{ArrayCommand, CheckForm, DetailForm, Loss, RebuildForm};
use std::alloc::Global;
use std::sync::Wait;
use std::thread::Threads;

/// Does a command with an opened array; the names are those of its images. The input is read by `Write`, `Serve` and
/// `ServeWritable` alone, and these two tell the session's `watch` of each request that they refuse. `Check`, `Rebuild` and `ReAdd` alone
/// start threads, and tell it of their reads. `Rebuild` and `ReAdd` alone may wait for them.
pub(crate) fn perform<
    D: Device + Drop + Send,
    T: Threads + Wait + Sync,
    R: Source + Drop,
    S: Sink + Drop,
    W: ReadWatch + ClientWatch + Sync,
    A: Drop,
>(
    session: &mut Session<'_, T, R, S, W, A>,
    command: ArrayCommand<'_>,
    opened: &mut Opened<D>,
    names: &[&str],
) -> Result<(), CommandFault>
    requires sound { IsConsistent opened.old.mirror }
    requires brings { is_some opened.old.beside ≡ is_some (device_to_add (array_ask command)) }
    ensures performs { Performs R.Source S.Sink (texts names.now) (array_ask command.entry)
        (opened_view D.Device opened.old) (opened_view D.Device opened.new)
        (streams_of session.old) (streams_of session.new) result }
    ensures noted { fills (array_ask command.entry) ≡ false → session.new.gaps ≡ session.old.gaps }
    ensures counted { compares (array_ask command.entry) ≡ false
        → session.new.mismatched ≡ session.old.mismatched }
    ensures unasked { session.new.asker ≡ session.old.asker }
    ensures flushed { IfOk result (λ _. S.is_flushed session.new.out) }
{
    let (rt, alloc, watch) = (session.rt, session.alloc, session.watch);
    match command {
        ArrayCommand::Assemble { json, .. } => {
            assemble(&opened.mirror, json, names, &mut session.out)
        }
        ArrayCommand::Detail { form, .. } => detail(&opened.mirror, form, names, &mut session.out),
        ArrayCommand::Plan { member, json, .. } => {
            plan(alloc, &opened.mirror, member, json, names, &mut session.out)
        }
        ArrayCommand::Read {
            sector,
            count,
            fill,
            readonly,
        } => { read_sectors(session, opened, sector, count, fill, readonly) }
        ArrayCommand::Serve { fill } => serve(session, opened, fill),
        ArrayCommand::ServeWritable => {
            let (mirror, input) = (&mut opened.mirror, &mut session.input);
            serve_writable(alloc, mirror, watch, input, &mut session.out)
        }
        ArrayCommand::Check { form, .. } => check(session, opened, form, names),
        ArrayCommand::Write { sector, count } => {
            let (mirror, input) = (&mut opened.mirror, &mut session.input);
            let out = &mut session.out;
            Ok(write_array(alloc, mirror, sector, count, input, watch, out)?)
        }
        ArrayCommand::Resync => Ok(resync_array(alloc, &mut opened.mirror, &mut session.out)?),
        ArrayCommand::Stop { json: false } => {
            Ok(stop_array(&mut opened.mirror, &mut session.out)?)
        }
        ArrayCommand::Stop { json: true } => {
            Ok(stop_array_json(&mut opened.mirror, names, &mut session.out)?)
        }
        ArrayCommand::Fail { member } => {
            Ok(fail_member(&mut opened.mirror, member, &mut session.out)?)
        }
        ArrayCommand::Remove { member } => remove(opened, member, &mut session.out),
        ArrayCommand::Add { json, .. } => add(alloc, opened, json, names, &mut session.out),
        ArrayCommand::ReAdd { full, json, .. } => re_add(session, opened, full, json, names),
        ArrayCommand::Rebuild { member, loss, form } => {
            let (mirror, out) = (&mut opened.mirror, &mut session.out);
            match loss {
                Loss::Chunks => rebuild(rt, alloc, mirror, member, form, watch, out),
                Loss::Sectors => salvage(rt, alloc, mirror, member, form, watch, out),
            }
        }
    }
}

// Puts out the array in short.
fn assemble<D: Device + Drop, S: Sink>(
    mirror: &Mirror<D>,
    json: bool,
    names: &[&str],
    out: &mut S,
) -> Result<(), CommandFault>
    ensures shows { ShowsText S.Sink
        (summary_shown (codes "assemble") json (texts names.now) mirror.now.array) out.old out.new result }
    ensures flushed { IfOk result (λ _. S.is_flushed out.new) }
{
    show_short(mirror, "assemble", json, names, out)
}

// Puts it out with the state of each member.
fn detail<D: Device + Drop, S: Sink>(
    mirror: &Mirror<D>,
    form: DetailForm,
    names: &[&str],
    out: &mut S,
) -> Result<(), CommandFault>
    ensures shows { ShowsText S.Sink (detail_shown form (texts names.now) mirror.now.array)
        out.old out.new result }
    ensures flushed { IfOk result (λ _. S.is_flushed out.new) }
{
    match form {
        DetailForm::Text => Ok(show_detail(mirror, out)?),
        DetailForm::Verbose => Ok(show_verbose_detail(mirror, names, out)?),
        DetailForm::Json => Ok(show_detail_json(mirror, names, out)?),
    }
}

// Puts out the plan of a rebuild of the member with this index.
fn plan<D: Device + Drop, S: Sink>(
    alloc: Global,
    mirror: &Mirror<D>,
    member: u32,
    json: bool,
    names: &[&str],
    out: &mut S,
) -> Result<(), CommandFault>
    requires sound { IsConsistent mirror.now }
    ensures shows { MatchResult result
        (λ _. ShowsPlan S.Sink mirror.now.array member out.old out.new
        (plan_shown json (texts names.now) mirror.now.array))
        (RefusesToPlan S.Sink mirror.now.array member out.old out.new) }
    ensures flushed { IfOk result (λ _. S.is_flushed out.new) }
{
    if json {
        return Ok(show_plan_json(alloc, mirror, member, names, out)?);
    }
    Ok(show_plan(alloc, mirror, member, out)?)
}

// How many sectors are to be read: so many, or all from this one on.
fn sectors_asked<D: Device + Drop>(mirror: &Mirror<D>, sector: u64, count: Option<u64>) -> u64
    ensures { result ≡ sectors_asked mirror.now.array sector count }
{
    match count {
        Some(count) => count,
        None => mirror.chunks().size.saturating_sub(sector),
    }
}

// Puts out sectors of the array, those behind the ones that stand already, and perhaps fills those that are not given.
fn read_sectors<D: Device + Drop, T, R: Source + Drop, S: Sink + Drop, W: ReadWatch, A: Drop>(
    session: &mut Session<'_, T, R, S, W, A>,
    opened: &mut Opened<D>,
    sector: u64,
    count: Option<u64>,
    fill: bool,
    readonly: bool,
) -> Result<(), CommandFault>
    requires sound { IsConsistent opened.old.mirror }
    ensures kept { (opened_view D.Device opened.new).beside ≡ (opened_view D.Device opened.old).beside }
    ensures input { session.new.input ≡ session.old.input }
    ensures reads { PerformsReadOn S.Sink sector
        (sectors_asked (opened_view D.Device opened.old).mirror.array sector count) fill readonly
        (opened_view D.Device opened.old) (opened_view D.Device opened.new)
        (streams_of session.old) (streams_of session.new) result }
    ensures told { W.reads session.old.watch.now
        (sectors_asked (opened_view D.Device opened.old).mirror.array sector count) }
    ensures noted { fill ≡ false → session.new.gaps ≡ session.old.gaps }
    ensures counted { session.new.mismatched ≡ session.old.mismatched }
    ensures unasked { session.new.asker ≡ session.old.asker }
    ensures flushed { IfOk result (λ _. S.is_flushed session.new.out) }
{
    let count = sectors_asked(&opened.mirror, sector, count);
    session.watch.begins_read(count);
    let stands = session.stands;
    if stands > 0 && count <= stands {
        session.is_all_out = true;
        return end_output(&session.gaps, &mut session.out);
    }
    let sector = rest_from(sector, stands);
    let count = count - stands;
    if fill {
        return read_filled(session, opened, sector, count, readonly);
    }
    let (alloc, out) = (session.alloc, &mut session.out);
    read(alloc, opened, sector, count, readonly, out)
}

// Puts out sectors of the array. Where no image may be changed nothing is written, over the images neither.
fn read<D: Device + Drop, S: Sink>(
    alloc: Global,
    opened: &mut Opened<D>,
    sector: u64,
    count: u64,
    readonly: bool,
    out: &mut S,
) -> Result<(), CommandFault>
    requires sound { IsConsistent opened.old.mirror }
    ensures kept { (opened_view D.Device opened.new).beside ≡ (opened_view D.Device opened.old).beside }
    ensures shows { ShowsSectors S.Sink sector count readonly
        (opened_view D.Device opened.old) (opened_view D.Device opened.new) out.old out.new result }
    ensures flushed { IfOk result (λ _. S.is_flushed out.new) }
{
    let mirror = &mut opened.mirror;
    if readonly {
        return Ok(read_array_readonly(alloc, mirror, sector, count, out)?);
    }
    Ok(read_array(alloc, mirror, sector, count, out)?)
}

// Puts out sectors, and fills those that are not given. Which these are is noted, beside those that were not given before them, and
// whether all sectors were put out.
fn read_filled<D: Device + Drop, T, R: Source + Drop, S: Sink + Drop, W: FillWatch, A: Drop>(
    session: &mut Session<'_, T, R, S, W, A>,
    opened: &mut Opened<D>,
    sector: u64,
    count: u64,
    readonly: bool,
) -> Result<(), CommandFault>
    requires sound { IsConsistent opened.old.mirror }
    ensures kept { (opened_view D.Device opened.new).beside ≡ (opened_view D.Device opened.old).beside }
    ensures input { session.new.input ≡ session.old.input }
    ensures reads { ReadsFilledOn S.Sink readonly sector count opened.old.mirror opened.new.mirror
        session.old.out session.new.out session.old.gaps session.new.gaps result }
    ensures all_out { session.new.is_all_out ≡ has_put_all result }
    ensures counted { session.new.mismatched ≡ session.old.mismatched }
    ensures unasked { session.new.asker ≡ session.old.asker }
    ensures flushed { IfOk result (λ _. S.is_flushed session.new.out) }
{
    let (alloc, watch, mirror) = (session.alloc, session.watch, &mut opened.mirror);
    let out = &mut session.out;
    let (gaps, done) = read_array_filled(alloc, mirror, sector, count, readonly, watch, out);
    let (gaps, done) = with_earlier(session.gaps.take(), gaps, done);
    session.gaps = gaps;
    session.is_all_out = has_put_all(&done);
    done
}

// Serves the array to a client. Which sectors were filled for it is noted, where they were to be.
fn serve<D: Device + Drop, T, R: Source + Drop, S: Sink + Drop, W: ClientWatch, A: Drop>(
    session: &mut Session<'_, T, R, S, W, A>,
    opened: &mut Opened<D>,
    fill: bool,
) -> Result<(), CommandFault>
    requires sound { IsConsistent opened.old.mirror }
    ensures kept { (opened_view D.Device opened.new).beside ≡ (opened_view D.Device opened.old).beside }
    ensures serves { PerformsServe R.Source S.Sink fill
        (opened_view D.Device opened.old) (opened_view D.Device opened.new)
        (streams_of session.old) (streams_of session.new) result }
    ensures noted { fill ≡ false → session.new.gaps ≡ session.old.gaps }
    ensures counted { session.new.mismatched ≡ session.old.mismatched }
    ensures unasked { session.new.asker ≡ session.old.asker }
    ensures flushed { IfOk result (λ _. S.is_flushed session.new.out) }
{
    let (alloc, watch, mirror) = (session.alloc, session.watch, &mut opened.mirror);
    let (input, out) = (&mut session.input, &mut session.out);
    let (gaps, served) = serve_array(alloc, mirror, fill, watch, input, out);
    if fill {
        session.gaps = Some(gaps);
    }
    Ok(served?)
}

// Compares the members in sync, and puts out in how many chunks two differ, or which these are. How many is noted.
fn check<
    D: Device + Drop + Send,
    T: Threads + Sync,
    R: Source + Drop,
    S: Sink + Drop,
    W: ReadWatch + ClientWatch + Sync,
    A: Drop,
>(
    session: &mut Session<'_, T, R, S, W, A>,
    opened: &mut Opened<D>,
    form: CheckForm,
    names: &[&str],
) -> Result<(), CommandFault>
    requires sound { IsConsistent opened.old.mirror }
    ensures kept { (opened_view D.Device opened.new).beside ≡ (opened_view D.Device opened.old).beside }
    ensures input { session.new.input ≡ session.old.input }
    ensures checks { PerformsCheck S.Sink form (texts names.now)
        (opened_view D.Device opened.old) (opened_view D.Device opened.new)
        session.old.out session.new.out session.new.mismatched result }
    ensures noted { session.new.gaps ≡ session.old.gaps }
    ensures unasked { session.new.asker ≡ session.old.asker }
    ensures flushed { IfOk result (λ _. S.is_flushed session.new.out) }
{
    let (rt, alloc, watch) = (session.rt, session.alloc, session.watch);
    let out = &mut session.out;
    let mismatched = compare(rt, alloc, opened, form, watch, names, out)?;
    session.mismatched = Some(mismatched);
    Ok(())
}

// Compares the members in sync, and puts out in how many chunks two differ, or which these are.
fn compare<D: Device + Drop + Send, T: Threads + Sync, W: Watch + Sync, S: Sink>(
    rt: &T,
    alloc: Global,
    opened: &mut Opened<D>,
    form: CheckForm,
    watch: &W,
    names: &[&str],
    out: &mut S,
) -> Result<u32, CommandFault>
    requires sound { IsConsistent opened.old.mirror }
    ensures kept { (opened_view D.Device opened.new).beside ≡ (opened_view D.Device opened.old).beside }
    ensures shows { ShowsMismatches S.Sink form (texts names.now)
        (opened_view D.Device opened.old) (opened_view D.Device opened.new) out.old out.new result }
    ensures flushed { IfOk result (λ _. S.is_flushed out.new) }
{
    let mirror = &mut opened.mirror;
    match form {
        CheckForm::Count => Ok(check_members(rt, alloc, mirror, watch, out)?),
        CheckForm::List => Ok(list_mismatches(rt, alloc, mirror, watch, out)?),
        CheckForm::Json => Ok(check_members_json(rt, alloc, mirror, watch, names, out)?),
    }
}

// Removes the member with this index. Its device stands beside the array then, if it left.
fn remove<D: Device + Drop, S: Sink>(
    opened: &mut Opened<D>,
    member: u32,
    out: &mut S,
) -> Result<(), CommandFault>
    requires sound { IsConsistent opened.old.mirror }
    ensures removes { PerformsRemove S.Sink member
        (opened_view D.Device opened.old) (opened_view D.Device opened.new) out.old out.new result }
    ensures flushed { IfOk result (λ _. S.is_flushed out.new) }
{
    let (device, removed) = remove_member(&mut opened.mirror, member, out);
    opened.beside = device;
    Ok(removed?)
}

// Adds the device that stands beside the array. If it does not join, it stands there again.
fn add<D: Device + Drop, S: Sink>(
    alloc: Global,
    opened: &mut Opened<D>,
    json: bool,
    names: &[&str],
    out: &mut S,
) -> Result<(), CommandFault>
    requires sound { IsConsistent opened.old.mirror }
    requires some { is_some opened.old.beside ≡ true }
    ensures adds { PerformsAdd S.Sink (summary_shown (codes "add") json (texts names.now))
        (opened_view D.Device opened.old) (opened_view D.Device opened.new) out.old out.new result }
    ensures flushed { IfOk result (λ _. S.is_flushed out.new) }
{
    let Some(device) = opened.beside.take() else {
        unreachable!()
    };
    let (device, added) = add_shown(alloc, &mut opened.mirror, device, json, names, out);
    opened.beside = device;
    Ok(added?)
}

// Adds a device, and puts out what the array is then.
fn add_shown<D: Device + Drop, S: Sink>(
    alloc: Global,
    mirror: &mut Mirror<D>,
    device: D,
    json: bool,
    names: &[&str],
    out: &mut S,
) -> (Option<D>, Result<(), CommandFault>)
    requires sound { IsConsistent mirror.old }
    ensures gives { MatchResult result.1
        (λ _. StopsArrayAfter S.Sink (summary_shown (codes "add") json (texts names.now))
        (AddsDevice (disk_of D.Device device) mirror.old) mirror.new out.old out.new)
        (RefusesJoining S.Sink (disk_of D.Device device) (option_map (disk_of D.Device) result.0) mirror.old
        mirror.new out.old out.new) }
    ensures device { KeepsDevice mirror.old.disks mirror.new.disks (option_map (disk_of D.Device) result.0) }
    ensures flushed { IfOk result.1 (λ _. S.is_flushed out.new) }
{
    if json {
        return add_device_json(alloc, mirror, device, names, out);
    }
    add_device(alloc, mirror, device, out)
}

// Rebuilds the member with this index, and puts out what was done.
fn rebuild<D: Device + Drop + Send, T: Threads + Wait + Sync, W: Watch + Sync, S: Sink>(
    rt: &T,
    alloc: Global,
    mirror: &mut Mirror<D>,
    member: u32,
    form: RebuildForm,
    watch: &W,
    out: &mut S,
) -> Result<(), CommandFault>
    requires sound { IsConsistent mirror.old }
    ensures rebuilds { MatchResult result
        (λ _. RebuildsArray S.Sink member mirror.old mirror.new out.old out.new (rebuilt_told form member))
        (RefusesToRebuild S.Sink member mirror.old mirror.new out.old out.new) }
    ensures flushed { IfOk result (λ _. S.is_flushed out.new) }
{
    match form {
        RebuildForm::Plans => Ok(rebuild_member(rt, alloc, mirror, member, false, watch, out)?),
        RebuildForm::Line => Ok(rebuild_member(rt, alloc, mirror, member, true, watch, out)?),
        RebuildForm::Json => Ok(rebuild_member_json(rt, alloc, mirror, member, watch, out)?),
    }
}

// Rebuilds the member with this index and loses sectors alone, and puts out what was done.
fn salvage<D: Device + Drop + Send, T: Threads + Wait + Sync, W: Watch + Sync, S: Sink>(
    rt: &T,
    alloc: Global,
    mirror: &mut Mirror<D>,
    member: u32,
    form: RebuildForm,
    watch: &W,
    out: &mut S,
) -> Result<(), CommandFault>
    requires sound { IsConsistent mirror.old }
    ensures salvages { MatchResult result
        (λ _. SalvagesArray S.Sink member mirror.old mirror.new out.old out.new (salvaged_told form member))
        (RefusesToSalvage S.Sink member mirror.old mirror.new out.old out.new) }
    ensures flushed { IfOk result (λ _. S.is_flushed out.new) }
{
    match form {
        RebuildForm::Plans => Ok(salvage_member(rt, alloc, mirror, member, false, watch, out)?),
        RebuildForm::Line => Ok(salvage_member(rt, alloc, mirror, member, true, watch, out)?),
        RebuildForm::Json => Ok(salvage_member_json(rt, alloc, mirror, member, watch, out)?),
    }
}

// Takes the device back that stands beside the array, and rebuilds it. If it does not join, it stands there again.
fn re_add<
    D: Device + Drop + Send,
    T: Threads + Wait + Sync,
    R: Source + Drop,
    S: Sink + Drop,
    W: Watch + Sync,
    A: Drop,
>(
    session: &mut Session<'_, T, R, S, W, A>,
    opened: &mut Opened<D>,
    full: bool,
    json: bool,
    names: &[&str],
) -> Result<(), CommandFault>
    requires sound { IsConsistent opened.old.mirror }
    requires some { is_some opened.old.beside ≡ true }
    ensures input { session.new.input ≡ session.old.input }
    ensures re_adds { PerformsReAdd S.Sink (summary_shown (codes "re-add") json (texts names.now))
        (rebuild_extent full) (opened_view D.Device opened.old) (opened_view D.Device opened.new)
        session.old.out session.new.out result }
    ensures noted { session.new.gaps ≡ session.old.gaps }
    ensures counted { session.new.mismatched ≡ session.old.mismatched }
    ensures unasked { session.new.asker ≡ session.old.asker }
    ensures flushed { IfOk result (λ _. S.is_flushed session.new.out) }
{
    let Some(device) = opened.beside.take() else {
        unreachable!()
    };
    let mirror = &mut opened.mirror;
    let (device, re_added) = re_add_shown(session, mirror, device, full, json, names);
    opened.beside = device;
    Ok(re_added?)
}

// Takes a device back and rebuilds it, and puts out what the array is then.
fn re_add_shown<
    D: Device + Drop + Send,
    T: Threads + Wait + Sync,
    R: Source + Drop,
    S: Sink + Drop,
    W: Watch + Sync,
    A: Drop,
>(
    session: &mut Session<'_, T, R, S, W, A>,
    mirror: &mut Mirror<D>,
    device: D,
    full: bool,
    json: bool,
    names: &[&str],
) -> (Option<D>, Result<(), CommandFault>)
    requires sound { IsConsistent mirror.old }
    ensures input { session.new.input ≡ session.old.input }
    ensures gives { MatchResult result.1
        (λ _. StopsArrayAfter S.Sink (summary_shown (codes "re-add") json (texts names.now))
        (ReAddsDevice (rebuild_extent full) (disk_of D.Device device) mirror.old) mirror.new
        session.old.out session.new.out)
        (RefusesToReAdd S.Sink (rebuild_extent full) (disk_of D.Device device)
        (option_map (disk_of D.Device) result.0) mirror.old mirror.new session.old.out session.new.out) }
    ensures device { KeepsDevice mirror.old.disks mirror.new.disks (option_map (disk_of D.Device) result.0) }
    ensures noted { session.new.gaps ≡ session.old.gaps }
    ensures counted { session.new.mismatched ≡ session.old.mismatched }
    ensures unasked { session.new.asker ≡ session.old.asker }
    ensures flushed { IfOk result.1 (λ _. S.is_flushed session.new.out) }
{
    let extent = extent_of(full);
    let returning = Returning { device, extent };
    let (rt, alloc, watch) = (session.rt, session.alloc, session.watch);
    let out = &mut session.out;
    if json {
        return re_add_device_json(rt, alloc, mirror, returning, names, watch, out);
    }
    re_add_device(rt, alloc, mirror, returning, watch, out)
}

// What a device that comes back gets.
fn extent_of(full: bool) -> RebuildExtent
    ensures { result ≡ rebuild_extent full }
{
    if full {
        RebuildExtent::All
    } else {
        RebuildExtent::Marked
    }
}
