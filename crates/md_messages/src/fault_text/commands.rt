// The text of a fault of a command.
ghost use Rattle.std.specs.Prelude.{◌≡◌, IfOk};
ghost use Rattle.md_streams.specs.Sink.{PutsOrFails};
ghost use Rattle.md_messages.specs.FaultText.Commands.{refusal_line, fault_text, told_fault};

use crate::fault_text::calls::{put_check, put_rebuild, put_resync, put_stop, put_unread};
use crate::fault_text::openings::{put_create, put_grow, put_open, put_option};
use crate::fault_text::steps::{put_add, put_begin, put_fail, put_re_add, put_remove};
use md_examine::put_member;
use md_refusals::CommandFault;
use md_streams::{Output, Sink, SinkFault, number_after};
use std::alloc::Global;

#[tactic(auto, unfolding(crate::specs::FaultText::Commands::fault_text))]
fn put_fault<S: Sink>(out: &mut S, fault: &CommandFault) -> Result<(), SinkFault>
    ensures { PutsOrFails S.contents S.failed out.old out.new (fault_text fault.now) result }
{
    match fault {
        CommandFault::BadCount => out.put(b"BadCount"),
        CommandFault::BadImage(word, _) => number_after(out, b"BadImage ", *word),
        CommandFault::Options(fault) => put_option(out, *fault),
        CommandFault::Member(fault) => put_member(out, *fault),
        CommandFault::NoBitmap => out.put(b"NoBitmap"),
        CommandFault::Create(fault) => put_create(out, *fault),
        CommandFault::Grow(fault) => put_grow(out, *fault),
        CommandFault::MetadataFault(word) => number_after(out, b"MetadataFault ", *word),
        CommandFault::NoMemory | CommandFault::NoPieceMemory => out.put(b"NoMemory"),
        CommandFault::Declined => out.put(b"Declined"),
        CommandFault::NotAll(role) => number_after(out, b"NotAll ", *role),
        CommandFault::Open(fault) => put_open(out, *fault),
        CommandFault::InputFault => out.put(b"InputFault"),
        CommandFault::OutOfRange => out.put(b"OutOfRange"),
        CommandFault::BadLength => out.put(b"BadLength"),
        CommandFault::BadMember => out.put(b"BadMember"),
        CommandFault::Fail(fault) => put_fail(out, *fault),
        CommandFault::Remove(fault) => put_remove(out, *fault),
        CommandFault::Add(fault) => put_add(out, *fault),
        CommandFault::ReAdd(fault) => put_re_add(out, *fault),
        CommandFault::Rebuild(fault) => put_rebuild(out, *fault),
        CommandFault::Resync(fault) => put_resync(out, *fault),
        CommandFault::Check(fault) => put_check(out, *fault),
        CommandFault::Read(fault) => put_unread(out, *fault),
        CommandFault::Write(fault) => put_begin(out, *fault),
        CommandFault::Stop(fault) => put_stop(out, *fault),
        CommandFault::OutputFault => out.put(b"OutputFault"),
    }
}

/// Puts out the line of a command that is refused. It takes no memory, and fails only where the output has failed.
#[tactic(auto, unfolding(crate::specs::FaultText::Commands::refusal_line), using(md_streams::proofs::Puts::puts_then))]
pub fn put_fault_line<S: Sink>(out: &mut S, fault: &CommandFault) -> Result<(), SinkFault>
    ensures { PutsOrFails S.contents S.failed out.old out.new (refusal_line fault.now) result }
{
    out.put(b"mdcli: ")?;
    put_fault(out, fault)?;
    out.put(b"\n")?;
    Ok(())
}

// The text of a fault after the program's name.
#[tactic(auto, unfolding(crate::specs::FaultText::Commands::told_fault), using(md_streams::proofs::Puts::puts_then))]
fn put_told_fault<S: Sink>(out: &mut S, fault: &CommandFault) -> Result<(), SinkFault>
    ensures { PutsOrFails S.contents S.failed out.old out.new (told_fault fault.now) result }
{
    out.put(b"mdcli: ")?;
    put_fault(out, fault)?;
    Ok(())
}

/// The name and the values of a fault. It fails only where there is no memory.
pub fn fault_words(alloc: Global, fault: &CommandFault) -> Result<Vec<u8>, SinkFault>
    ensures { IfOk result (λ words. words.items ≡ fault_text fault.now) }
{
    let mut out = Output::new(Vec::new(alloc));
    put_fault(&mut out, fault)?;
    Ok(out.into_inner())
}

/// The line of a command that is refused, without its end. It fails only where there is no memory.
pub fn refusal_words(alloc: Global, fault: &CommandFault) -> Result<Vec<u8>, SinkFault>
    ensures { IfOk result (λ words. words.items ≡ told_fault fault.now) }
{
    let mut out = Output::new(Vec::new(alloc));
    put_told_fault(&mut out, fault)?;
    Ok(out.into_inner())
}
