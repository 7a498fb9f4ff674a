// Of which arrays images are members.
ghost use Rattle.std.specs.Prelude.{◌≡◌, ℕ, List, false, true};
ghost use Rattle.md_streams.specs.Sink.{PutsOrFails};
ghost use Rattle.md_streams.specs.Messages.{has_advice};
ghost use Rattle.std.specs.List.{list_any};
ghost use Rattle.md_examine_commands.specs.Unshown.{may_be_member};
ghost use Rattle.md_cli.specs.Scanning.{ScansImages, ShowsLooked, is_complete, outcome_line, unshown_line, unshown_lines, unshown_text, scan_status};

use crate::running::{DONE, REFUSED};
use md_examine_commands::{Looked, Refused, ScanFault, look_at_each, show_scan};
use md_images::{ImageRefusal, Images};
use md_messages::{advise, put_fault_line};
use md_refusals::CommandFault;
use md_streams::{Messages, Sink, SinkFault, put_name};
use md_words::Command;
use std::alloc::Global;
use std::io::Write;

/// How arrays are looked for: whether the report is a JSON object, whether a person named the images, and how much standard error is
/// told.
#[derive(Clone, Copy)]
pub struct ScanOptions {
    pub json: bool,
    pub is_named: bool,
    pub messages: Messages,
}

fn may_be_one_of(all: &[Refused<'_>]) -> bool
    ensures { result ≡ list_any (λ refused. may_be_member refused.fault) all.now }
{
    all.iter().any(|refused| refused.fault.may_be_member())
}

// Whether an array was found, and all are shown that a person named and that may be members.
fn is_complete(is_named: bool, looked: &Looked<'_>) -> bool
    ensures { result ≡ is_complete is_named looked.now }
{
    !looked.seen.is_empty() && !(is_named && may_be_one_of(looked.refused.as_slice()))
}

#[tactic(auto, unfolding(crate::specs::Scanning::unshown_line), using(md_streams::proofs::Puts::puts_then))]
fn put_unshown_line<E: Sink>(err: &mut E, refused: &Refused<'_>) -> Result<(), SinkFault>
    ensures { PutsOrFails E.contents E.failed err.old err.new (unshown_line refused.now) result }
{
    put_name(err, refused.name)?;
    err.put(b": ")?;
    refused.fault.put_word(err)?;
    err.put(b"\n")?;
    Ok(())
}

fn put_refused<E: Sink>(err: &mut E, is_named: bool, refused: &Refused<'_>) -> Result<(), SinkFault>
    ensures { PutsOrFails E.contents E.failed err.old err.new (unshown_text is_named refused.now) result }
{
    if refused.is_told_why(is_named) {
        put_unshown_line(err, refused)
    } else {
        err.put(b"")
    }
}

fn put_each_refused<E: Sink>(
    err: &mut E,
    is_named: bool,
    all: &[Refused<'_>],
) -> Result<(), SinkFault>
    ensures { PutsOrFails E.contents E.failed err.old err.new (unshown_lines is_named all.now) result }
{
    for refused in all {
        put_refused(err, is_named, refused)?;
    }
    Ok(())
}

// What to do, of each image that is told of, where advice is asked for.
fn advise_on_each<E: Write>(how: ScanOptions, all: Vec<Refused<'_>>, err: &mut E)
    ensures plain { has_advice how.messages ≡ false → err.new ≡ err.old }
{
    if !how.messages.has_advice() {
        return;
    }
    let command = Command::Scan { json: how.json };
    for refused in all {
        if refused.is_told_why(how.is_named) {
            let fault = match refused.fault {
                ScanFault::Image(fault) => {
                    CommandFault::BadImage(0, ImageRefusal::Unopened(fault))
                }
                ScanFault::Member(fault) => CommandFault::Member(fault),
            };
            advise(&fault, &[refused.name], command, err);
        }
    }
}

// The line of a report that is not put out.
fn put_outcome<E: Sink>(err: &mut E, shown: &Result<(), CommandFault>) -> Result<(), SinkFault>
    ensures { PutsOrFails E.contents E.failed err.old err.new (outcome_line shown.now) result }
{
    match shown {
        Ok(()) => err.put(b""),
        Err(fault) => put_fault_line(err, fault),
    }
}

fn status_of_scan(is_named: bool, shown: &Result<(), CommandFault>, looked: &Looked<'_>) -> u8
    ensures { result ≡ scan_status is_named shown.now looked.now }
{
    match shown {
        Ok(()) => {
            if is_complete(is_named, looked) {
                DONE
            } else {
                REFUSED
            }
        }
        Err(_) => REFUSED,
    }
}

// Shows what the images show.
fn show_looked<S: Sink, E: Write + Sink>(
    how: ScanOptions,
    looked: Looked<'_>,
    out: &mut S,
    err: &mut E,
) -> u8
    ensures shows { ShowsLooked S.Sink E.Sink how looked.entry out.old out.new err.old err.new result }
    ensures flushed { result ≡ 0 → S.is_flushed out.new }
{
    let shown = show_scan(how.json, how.is_named, &looked, out);
    let status = status_of_scan(how.is_named, &shown, &looked);
    let _ = put_each_refused(err, how.is_named, looked.refused.as_slice());
    let _ = put_outcome(err, &shown);
    advise_on_each(how, looked.refused, err);
    status
}

/// Shows of which arrays the images are members, and says on `err` which are none, and why. The status is 0 where there is an
/// array, and 1 where there is none, where an image that a person named may be a member and is not shown, where the report can't
/// be put out, and where there is no memory.
pub fn scan<I: Images, S: Sink, E: Write + Sink>(
    alloc: Global,
    how: ScanOptions,
    images: &mut I,
    names: &[&str],
    out: &mut S,
    err: &mut E,
) -> u8
    ensures scans { ScansImages I.Images I.Dev.Device S.Sink E.Sink how names.now images.old images.new
        out.old out.new err.old err.new result }
    ensures looked { I.known images.old ≡ true → (n : List ℕ) → I.asked images.new n ≡ I.asked images.old n }
    ensures flushed { result ≡ 0 → S.is_flushed out.new }
{
    match look_at_each(alloc, images, names) {
        Ok(looked) => show_looked(how, looked, out, err),
        Err(_) => {
            let _ = put_fault_line(err, &CommandFault::NoMemory);
            REFUSED
        }
    }
}
