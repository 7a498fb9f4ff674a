// The text of a fault of a device that is read as a member.
ghost use Rattle.std.specs.Prelude.{◌++◌};
ghost use Rattle.md_streams.specs.Sink.{PutsOrFails};
ghost use Rattle.md_examine.specs.Members.{bitmap_refusal_text, log_refusal_text, member_refusal_text, super_text};

use md_badblocks::LogFault;
use md_bitmap::BitmapFault;
use md_members::MemberFault;
use md_streams::{Sink, SinkFault, number_after};
use md_super::SuperFault;

fn put_super<S: Sink>(out: &mut S, fault: SuperFault) -> Result<(), SinkFault>
    ensures { PutsOrFails S.contents S.failed out.old out.new (super_text fault) result }
{
    match fault {
        SuperFault::Magic => out.put(b"Magic"),
        SuperFault::Major => out.put(b"Major"),
        SuperFault::MaxDev => out.put(b"MaxDev"),
        SuperFault::Checksum => out.put(b"Checksum"),
        SuperFault::SuperOffset => out.put(b"SuperOffset"),
        SuperFault::Feature(bits) => number_after(out, b"Feature ", bits),
        SuperFault::Level => out.put(b"Level"),
        SuperFault::RaidDisks => out.put(b"RaidDisks"),
        SuperFault::NoMemory => out.put(b"NoMemory"),
    }
}

fn put_bitmap<S: Sink>(out: &mut S, fault: BitmapFault) -> Result<(), SinkFault>
    ensures { PutsOrFails S.contents S.failed out.old out.new (bitmap_refusal_text fault) result }
{
    match fault {
        BitmapFault::Magic => out.put(b"Magic"),
        BitmapFault::Version => out.put(b"Version"),
        BitmapFault::ChunkSize => out.put(b"ChunkSize"),
        BitmapFault::TooManyChunks => out.put(b"TooManyChunks"),
    }
}

fn put_log<S: Sink>(out: &mut S, fault: LogFault) -> Result<(), SinkFault>
    ensures { PutsOrFails S.contents S.failed out.old out.new (log_refusal_text fault) result }
{
    match fault {
        LogFault::Shift => out.put(b"Shift"),
        LogFault::NoMemory => out.put(b"NoMemory"),
    }
}

#[tactic(auto, using(md_streams::proofs::Puts::puts_then))]
fn put_super_part<S: Sink>(out: &mut S, fault: SuperFault) -> Result<(), SinkFault>
    ensures { PutsOrFails S.contents S.failed out.old out.new
        (member_refusal_text (MemberFault.Super fault)) result }
{
    out.put(b"Super ")?;
    put_super(out, fault)?;
    Ok(())
}

#[tactic(auto, using(md_streams::proofs::Puts::puts_then))]
fn put_bitmap_part<S: Sink>(out: &mut S, fault: BitmapFault) -> Result<(), SinkFault>
    ensures { PutsOrFails S.contents S.failed out.old out.new
        (member_refusal_text (MemberFault.Bitmap fault)) result }
{
    out.put(b"Bitmap ")?;
    put_bitmap(out, fault)?;
    Ok(())
}

#[tactic(auto, using(md_streams::proofs::Puts::puts_then))]
fn put_log_part<S: Sink>(out: &mut S, fault: LogFault) -> Result<(), SinkFault>
    ensures { PutsOrFails S.contents S.failed out.old out.new
        (member_refusal_text (MemberFault.Log fault)) result }
{
    out.put(b"Log ")?;
    put_log(out, fault)?;
    Ok(())
}

/// Puts out why a device is not read as a member. It takes no memory, and fails only where the output has failed.
pub fn put_member<S: Sink>(out: &mut S, fault: MemberFault) -> Result<(), SinkFault>
    ensures { PutsOrFails S.contents S.failed out.old out.new (member_refusal_text fault) result }
{
    match fault {
        MemberFault::TooShort => out.put(b"TooShort"),
        MemberFault::ReadFault => out.put(b"ReadFault"),
        MemberFault::Super(fault) => put_super_part(out, fault),
        MemberFault::Region => out.put(b"Region"),
        MemberFault::Bitmap(fault) => put_bitmap_part(out, fault),
        MemberFault::Log(fault) => put_log_part(out, fault),
        MemberFault::NoMemory => out.put(b"NoMemory"),
    }
}
