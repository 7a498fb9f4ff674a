// The text of a fault of a whole call.
ghost use Rattle.md_streams.specs.Sink.{PutsOrFails};
ghost use Rattle.md_messages.specs.FaultText.Calls.{check_refusal_text, rebuild_text, resync_text, stop_text, unread_chunk_text, unread_refusal_text};

use md_check::CheckFault;
use md_copy::RebuildFault;
use md_metadata::StopFault;
use md_read::UnreadFault;
use md_resync::ResyncFault;
use md_streams::{Sink, SinkFault, number_after};

/// Puts out why an array is not stopped.
pub(crate) fn put_stop<S: Sink>(out: &mut S, fault: StopFault) -> Result<(), SinkFault>
    ensures { PutsOrFails S.contents S.failed out.old out.new (stop_text fault) result }
{
    match fault {
        StopFault::Halted => out.put(b"Halted"),
        StopFault::InFlight(request) => number_after(out, b"InFlight ", request),
        StopFault::EventsFull => out.put(b"EventsFull"),
        StopFault::MemberFailed(member) => number_after(out, b"MemberFailed ", member),
    }
}

/// Puts out why sectors are not read.
pub(crate) fn put_unread<S: Sink>(out: &mut S, fault: UnreadFault) -> Result<(), SinkFault>
    ensures { PutsOrFails S.contents S.failed out.old out.new (unread_refusal_text fault) result }
{
    match fault {
        UnreadFault::Halted => out.put(b"Halted"),
        UnreadFault::OutOfRange => out.put(b"OutOfRange"),
        UnreadFault::NotResynced => out.put(b"NotResynced"),
        UnreadFault::Unreadable(sector) => number_after(out, b"Unreadable ", sector),
    }
}

fn put_unread_chunk<S: Sink>(out: &mut S, member: usize, chunk: u32) -> Result<(), SinkFault>
    ensures { PutsOrFails S.contents S.failed out.old out.new (unread_chunk_text member chunk) result }
{
    number_after(out, b"ReadFault ", member)?;
    number_after(out, b" ", chunk)?;
    Ok(())
}

/// Puts out why an array is not resynchronised.
pub(crate) fn put_resync<S: Sink>(out: &mut S, fault: ResyncFault) -> Result<(), SinkFault>
    ensures { PutsOrFails S.contents S.failed out.old out.new (resync_text fault) result }
{
    match fault {
        ResyncFault::Halted => out.put(b"Halted"),
        ResyncFault::InFlight(request) => number_after(out, b"InFlight ", request),
        ResyncFault::NoMemory => out.put(b"NoMemory"),
        ResyncFault::ReadFault(member, chunk) => put_unread_chunk(out, member, chunk),
        ResyncFault::MemberFailed(member) => number_after(out, b"MemberFailed ", member),
    }
}

/// Puts out why members are not compared.
pub(crate) fn put_check<S: Sink>(out: &mut S, fault: CheckFault) -> Result<(), SinkFault>
    ensures { PutsOrFails S.contents S.failed out.old out.new (check_refusal_text fault) result }
{
    match fault {
        CheckFault::Halted => out.put(b"Halted"),
        CheckFault::InFlight(request) => number_after(out, b"InFlight ", request),
        CheckFault::ReadFault(member, chunk) => put_unread_chunk(out, member, chunk),
        CheckFault::NoMemory => out.put(b"NoMemory"),
    }
}

/// Puts out why a member is not rebuilt.
pub(crate) fn put_rebuild<S: Sink>(out: &mut S, fault: RebuildFault) -> Result<(), SinkFault>
    ensures { PutsOrFails S.contents S.failed out.old out.new (rebuild_text fault) result }
{
    match fault {
        RebuildFault::Halted => out.put(b"Halted"),
        RebuildFault::NotSpare => out.put(b"NotSpare"),
        RebuildFault::Dirty => out.put(b"Dirty"),
        RebuildFault::InFlight(request) => number_after(out, b"InFlight ", request),
        RebuildFault::LogFull(member) => number_after(out, b"LogFull ", member),
        RebuildFault::NoMemory => out.put(b"NoMemory"),
        RebuildFault::TargetFault => out.put(b"TargetFault"),
        RebuildFault::MetadataFault(member) => number_after(out, b"MetadataFault ", member),
        RebuildFault::EventsFull => out.put(b"EventsFull"),
    }
}
