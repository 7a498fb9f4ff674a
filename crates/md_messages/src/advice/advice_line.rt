// The line for people after a fault.
use crate::advice::advice::{
    LEAVE_SOURCE_OUT, SALVAGE_WITH_NEW_LOG, SALVAGE_WITHOUT_SOURCE, WRITE_A_FILE, advice,
};
use crate::advice::geometry_advice::geometry_advice;
use md_array::{AddFault, BeginFault, OpenFault, ReAddFault};
use md_assembly::AssembleFault;
use md_check::CheckFault;
use md_copy::RebuildFault;
use md_create::CreateFault;
use md_images::{ImageFault, ImageRefusal, is_missing};
use md_metadata::{GrowFault, StopFault};
use md_refusals::{CommandFault, DataOfFault, OptionFault};
use md_resync::ResyncFault;
use md_streams::{Output, put_name};
use md_words::{Command, LongTask, Loss};
use std::alloc::Global;
use std::io::Write;

// The image that a fault is about.
#[derive(Clone, Copy)]
enum Culprit {
    // The image word with this index.
    Word(usize),
    // The device with this index: words that stand for a missing member have none.
    Device(usize),
    // The device with this index, where a member that was removed is not counted.
    Staying(usize),
    // The one that an option of the command names: a member, or one that joins.
    Named,
}

fn culprit_of(fault: &CommandFault) -> Option<Culprit> {
    match fault {
        CommandFault::BadImage(word, _) => Some(Culprit::Word(*word)),
        CommandFault::MetadataFault(word) => Some(Culprit::Word(*word)),
        CommandFault::Options(OptionFault::DataOf(DataOfFault::NumberTaken(word))) => {
            Some(Culprit::Word(*word))
        }
        CommandFault::Member(_) | CommandFault::NoBitmap => Some(Culprit::Word(0)),
        CommandFault::Open(fault) => culprit_of_opening(*fault),
        CommandFault::Grow(fault) => culprit_of_growth(*fault),
        CommandFault::Resync(ResyncFault::ReadFault(device, _)) => Some(Culprit::Device(*device)),
        CommandFault::Resync(ResyncFault::MemberFailed(device)) => Some(Culprit::Device(*device)),
        CommandFault::Check(CheckFault::ReadFault(device, _)) => Some(Culprit::Device(*device)),
        CommandFault::Stop(StopFault::MemberFailed(device)) => Some(Culprit::Staying(*device)),
        CommandFault::Fail(_) => Some(Culprit::Named),
        CommandFault::Remove(_) => Some(Culprit::Named),
        CommandFault::Add(AddFault::TooSmall) => Some(Culprit::Named),
        CommandFault::Add(AddFault::WriteFault) => Some(Culprit::Named),
        CommandFault::ReAdd(fault) => culprit_of_re_add(*fault),
        CommandFault::Rebuild(fault) => culprit_of_rebuild(*fault),
        CommandFault::Options(OptionFault::MapOfTarget) => Some(Culprit::Named),
        _ => None,
    }
}

fn culprit_of_opening(fault: OpenFault) -> Option<Culprit> {
    match fault {
        OpenFault::Member(device, _) => Some(Culprit::Device(device)),
        OpenFault::MetadataFault(device) => Some(Culprit::Device(device)),
        OpenFault::Assemble(AssembleFault::Stranger(device)) => Some(Culprit::Device(device)),
        OpenFault::Assemble(AssembleFault::DoubleNumber(_, device)) => {
            Some(Culprit::Device(device))
        }
        OpenFault::Assemble(AssembleFault::NoBitmap(device)) => Some(Culprit::Device(device)),
        OpenFault::Assemble(AssembleFault::Geometry(device)) => Some(Culprit::Device(device)),
        _ => None,
    }
}

fn culprit_of_growth(fault: GrowFault) -> Option<Culprit> {
    match fault {
        GrowFault::Member(device, fault) => culprit_of_opening(OpenFault::Member(device, fault)),
        GrowFault::Assemble(fault) => culprit_of_opening(OpenFault::Assemble(fault)),
        GrowFault::NotInSync(device) => Some(Culprit::Device(device)),
        GrowFault::MetadataFault(device) => Some(Culprit::Device(device)),
        _ => None,
    }
}

fn culprit_of_re_add(fault: ReAddFault) -> Option<Culprit> {
    match fault {
        ReAddFault::Member(_) => Some(Culprit::Named),
        ReAddFault::NotReAddable => Some(Culprit::Named),
        ReAddFault::NoRole => Some(Culprit::Named),
        ReAddFault::WriteFault => Some(Culprit::Named),
        _ => None,
    }
}

fn culprit_of_rebuild(fault: RebuildFault) -> Option<Culprit> {
    match fault {
        RebuildFault::NotSpare => Some(Culprit::Named),
        RebuildFault::TargetFault => Some(Culprit::Named),
        RebuildFault::LogFull(device) => Some(Culprit::Staying(device)),
        RebuildFault::MetadataFault(device) => Some(Culprit::Staying(device)),
        _ => None,
    }
}

// The image of the member that a command names, or of the device that it adds or takes back.
fn named_by<'a>(command: Command<'a>, names: &[&'a str]) -> Option<&'a str> {
    match command.member() {
        Some(member) => names.get(member as usize).copied(),
        None => command.device(),
    }
}

// The image at a place among all of them: one that joins comes after the others.
fn image_at<'a>(place: usize, command: Command<'a>, names: &[&'a str]) -> Option<&'a str> {
    if place == names.len() {
        return command.device();
    }
    names.get(place).copied()
}

// The place among all images of one that stays when a member is removed.
fn place_of(device: usize, command: Command<'_>) -> usize {
    match command.leaving() {
        Some(member) if device >= member as usize => device.saturating_add(1),
        _ => device,
    }
}

fn path_of<'a>(culprit: Culprit, names: &[&'a str], command: Command<'a>) -> Option<&'a str> {
    match culprit {
        Culprit::Word(word) => image_at(word, command, names),
        Culprit::Device(device) => {
            let may_miss = matches!(command, Command::Create(_));
            let mut images = names.iter().filter(|name| !(may_miss && is_missing(name)));
            images.nth(device).copied()
        }
        Culprit::Staying(device) => image_at(place_of(device, command), command, names),
        Culprit::Named => named_by(command, names),
    }
}

// The index of the member that a command rebuilds. One that is taken back comes after the others.
fn rebuilt_member(command: Command<'_>, names: &[&str]) -> Option<usize> {
    match (command.long_task(), command.member()) {
        (Some(LongTask::Rebuild), Some(member)) => Some(member as usize),
        (Some(LongTask::Rebuild), None) => Some(names.len()),
        (
            Some(LongTask::Read(_) | LongTask::Resync | LongTask::Check | LongTask::Write) | None,
            _,
        ) => None,
    }
}

// What to do. Of a log that is full it depends on whose it is and on what the rebuild lists, of an array that can't be made on the
// options, and where there is no memory on whether an input is held there.
fn what_to_do(fault: &CommandFault, names: &[&str], command: Command<'_>) -> &'static str {
    match fault {
        CommandFault::Rebuild(RebuildFault::LogFull(device)) => {
            let is_target = rebuilt_member(command, names) == Some(*device);
            match (command.loss(), is_target) {
                (Some(Loss::Sectors), true) => SALVAGE_WITH_NEW_LOG,
                (Some(Loss::Sectors), false) => SALVAGE_WITHOUT_SOURCE,
                (Some(Loss::Chunks) | None, true) => advice(fault),
                (Some(Loss::Chunks) | None, false) => LEAVE_SOURCE_OUT,
            }
        }
        CommandFault::Create(CreateFault::BadGeometry) => match command {
            Command::Create(options) => geometry_advice(&options, names),
            _ => advice(fault),
        },
        fault if is_unheld_input(fault, command) => WRITE_A_FILE,
        _ => advice(fault),
    }
}

// Whether there was no memory for a command's input, or while it was written.
fn is_unheld_input(fault: &CommandFault, command: Command<'_>) -> bool {
    command.takes_input()
        && matches!(
            fault,
            CommandFault::NoPieceMemory | CommandFault::Write(BeginFault::NoMemory)
        )
}

/// Writes the image that a fault is about, and what to do, in one line.
pub fn advise<'a, E: Write>(
    fault: &CommandFault,
    names: &[&'a str],
    command: Command<'a>,
    err: &mut E,
) {
    if put_advice(fault, names, command, err).is_some() {
        let _ = writeln!(err);
    }
}

/// What to do about a fault, in memory, without the end of the line; none where there is no memory for it.
pub fn advice_words<'a>(
    alloc: Global,
    fault: &CommandFault,
    names: &[&'a str],
    command: Command<'a>,
) -> Option<Vec<u8>> {
    let mut words = Vec::new(alloc);
    put_advice(fault, names, command, &mut words)?;
    Some(words)
}

// None where a write fails.
fn put_advice<'a, E: Write>(
    fault: &CommandFault,
    names: &[&'a str],
    command: Command<'a>,
    out: &mut E,
) -> Option<()> {
    if let Some(culprit) = culprit_of(fault) {
        if let Some(path) = path_of(culprit, names, command) {
            put_name(&mut Output::new(&mut *out), path).ok()?;
            write!(out, ": ").ok()?;
        }
    }
    let what_to_do = what_to_do(fault, names, command);
    match fault {
        CommandFault::BadImage(_, ImageRefusal::Unopened(ImageFault::Io(error))) => {
            write!(out, "{error}; {what_to_do}").ok()
        }
        CommandFault::BadImage(_, refusal) => write!(out, "{refusal}").ok(),
        _ => write!(out, "{what_to_do}").ok(),
    }
}
