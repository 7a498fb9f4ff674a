// The text of a fault of a step.
ghost use Rattle.std.specs.Prelude.{◌++◌};
ghost use Rattle.md_streams.specs.Sink.{PutsOrFails};
ghost use Rattle.md_messages.specs.FaultText.Steps.{add_text, begin_text, fail_text, re_add_text, remove_text};

use md_array::{AddFault, BeginFault, FailFault, ReAddFault, RemoveFault};
use md_examine::put_member;
use md_members::MemberFault;
use md_streams::{Sink, SinkFault, number_after};

/// Puts out why bytes are not written.
pub(crate) fn put_begin<S: Sink>(out: &mut S, fault: BeginFault) -> Result<(), SinkFault>
    ensures { PutsOrFails S.contents S.failed out.old out.new (begin_text fault) result }
{
    match fault {
        BeginFault::Halted => out.put(b"Halted"),
        BeginFault::OutOfRange => out.put(b"OutOfRange"),
        BeginFault::Overlaps(request) => number_after(out, b"Overlaps ", request),
        BeginFault::NotResynced => out.put(b"NotResynced"),
        BeginFault::EventsFull => out.put(b"EventsFull"),
        BeginFault::NumbersSpent => out.put(b"NumbersSpent"),
        BeginFault::NoMemory => out.put(b"NoMemory"),
    }
}

/// Puts out why a member is not failed.
pub(crate) fn put_fail<S: Sink>(out: &mut S, fault: FailFault) -> Result<(), SinkFault>
    ensures { PutsOrFails S.contents S.failed out.old out.new (fail_text fault) result }
{
    match fault {
        FailFault::Halted => out.put(b"Halted"),
        FailFault::NotActive => out.put(b"NotActive"),
        FailFault::LastMember => out.put(b"LastMember"),
        FailFault::EventsFull => out.put(b"EventsFull"),
    }
}

/// Puts out why a member is not removed.
pub(crate) fn put_remove<S: Sink>(out: &mut S, fault: RemoveFault) -> Result<(), SinkFault>
    ensures { PutsOrFails S.contents S.failed out.old out.new (remove_text fault) result }
{
    match fault {
        RemoveFault::Halted => out.put(b"Halted"),
        RemoveFault::StillActive => out.put(b"StillActive"),
        RemoveFault::EventsFull => out.put(b"EventsFull"),
    }
}

/// Puts out why a device is not added.
pub(crate) fn put_add<S: Sink>(out: &mut S, fault: AddFault) -> Result<(), SinkFault>
    ensures { PutsOrFails S.contents S.failed out.old out.new (add_text fault) result }
{
    match fault {
        AddFault::Halted => out.put(b"Halted"),
        AddFault::TooSmall => out.put(b"TooSmall"),
        AddFault::Full => out.put(b"Full"),
        AddFault::EventsFull => out.put(b"EventsFull"),
        AddFault::WriteFault => out.put(b"WriteFault"),
        AddFault::NoMemory => out.put(b"NoMemory"),
    }
}

#[tactic(auto, using(md_streams::proofs::Puts::puts_then))]
fn put_unread<S: Sink>(out: &mut S, fault: MemberFault) -> Result<(), SinkFault>
    ensures { PutsOrFails S.contents S.failed out.old out.new (re_add_text (ReAddFault.Member fault)) result }
{
    out.put(b"Member ")?;
    put_member(out, fault)?;
    Ok(())
}

/// Puts out why a device is not taken back.
pub(crate) fn put_re_add<S: Sink>(out: &mut S, fault: ReAddFault) -> Result<(), SinkFault>
    ensures { PutsOrFails S.contents S.failed out.old out.new (re_add_text fault) result }
{
    match fault {
        ReAddFault::Halted => out.put(b"Halted"),
        ReAddFault::Member(fault) => put_unread(out, fault),
        ReAddFault::Full => out.put(b"Full"),
        ReAddFault::NotReAddable => out.put(b"NotReAddable"),
        ReAddFault::NoRole => out.put(b"NoRole"),
        ReAddFault::EventsFull => out.put(b"EventsFull"),
        ReAddFault::WriteFault => out.put(b"WriteFault"),
        ReAddFault::NoMemory => out.put(b"NoMemory"),
    }
}
