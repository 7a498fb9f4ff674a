// The text of a fault of devices that are opened as an array, made one, or given a bitmap.
ghost use Rattle.std.specs.Prelude.{◌++◌};
ghost use Rattle.md_streams.specs.Sink.{PutsOrFails};
ghost use Rattle.md_examine.specs.Members.{member_refusal_text};
ghost use Rattle.md_messages.specs.FaultText.Openings.{assemble_text, create_text, data_of_text, double_number_text, grow_text, open_refusal_text, option_text, unread_member_text};

use md_array::OpenFault;
use md_assembly::AssembleFault;
use md_create::CreateFault;
use md_examine::put_member;
use md_members::MemberFault;
use md_metadata::GrowFault;
use md_refusals::{DataOfFault, OptionFault};
use md_streams::{Sink, SinkFault, number_after};

fn put_double_number<S: Sink>(out: &mut S, first: usize, second: usize) -> Result<(), SinkFault>
    ensures { PutsOrFails S.contents S.failed out.old out.new (double_number_text first second) result }
{
    number_after(out, b"DoubleNumber ", first)?;
    number_after(out, b" ", second)?;
    Ok(())
}

fn put_assemble<S: Sink>(out: &mut S, fault: AssembleFault) -> Result<(), SinkFault>
    ensures { PutsOrFails S.contents S.failed out.old out.new (assemble_text fault) result }
{
    match fault {
        AssembleFault::Empty => out.put(b"Empty"),
        AssembleFault::TooMany => out.put(b"TooMany"),
        AssembleFault::Stranger(k) => number_after(out, b"Stranger ", k),
        AssembleFault::DoubleNumber(first, second) => put_double_number(out, first, second),
        AssembleFault::NoBitmap(k) => number_after(out, b"NoBitmap ", k),
        AssembleFault::Geometry(k) => number_after(out, b"Geometry ", k),
        AssembleFault::DoubleRole(role) => number_after(out, b"DoubleRole ", role),
        AssembleFault::NotEnough => out.put(b"NotEnough"),
        AssembleFault::NoMemory => out.put(b"NoMemory"),
    }
}

#[tactic(auto, using(md_streams::proofs::Puts::puts_then))]
fn put_assembly<S: Sink>(out: &mut S, fault: AssembleFault) -> Result<(), SinkFault>
    ensures { PutsOrFails S.contents S.failed out.old out.new
        (open_refusal_text (OpenFault.Assemble fault)) result }
{
    out.put(b"Assemble ")?;
    put_assemble(out, fault)?;
    Ok(())
}

#[tactic(auto, using(md_streams::proofs::Puts::puts_then))]
fn put_unread_member<S: Sink>(
    out: &mut S,
    device: usize,
    fault: MemberFault,
) -> Result<(), SinkFault>
    ensures { PutsOrFails S.contents S.failed out.old out.new
        (unread_member_text device (member_refusal_text fault)) result }
{
    number_after(out, b"Member ", device)?;
    out.put(b" ")?;
    put_member(out, fault)?;
    Ok(())
}

/// Puts out why devices are not opened as an array.
pub(crate) fn put_open<S: Sink>(out: &mut S, fault: OpenFault) -> Result<(), SinkFault>
    ensures { PutsOrFails S.contents S.failed out.old out.new (open_refusal_text fault) result }
{
    match fault {
        OpenFault::Member(device, fault) => put_unread_member(out, device, fault),
        OpenFault::Assemble(fault) => put_assembly(out, fault),
        OpenFault::MetadataFault(device) => number_after(out, b"MetadataFault ", device),
        OpenFault::NoMemory => out.put(b"NoMemory"),
    }
}

/// Puts out why no array is made.
pub(crate) fn put_create<S: Sink>(out: &mut S, fault: CreateFault) -> Result<(), SinkFault>
    ensures { PutsOrFails S.contents S.failed out.old out.new (create_text fault) result }
{
    match fault {
        CreateFault::BadGeometry => out.put(b"BadGeometry"),
        CreateFault::NoMemory => out.put(b"NoMemory"),
    }
}

/// Puts out why the members get no bitmap.
pub(crate) fn put_grow<S: Sink>(out: &mut S, fault: GrowFault) -> Result<(), SinkFault>
    ensures { PutsOrFails S.contents S.failed out.old out.new (grow_text fault) result }
{
    match fault {
        GrowFault::Member(device, fault) => put_unread_member(out, device, fault),
        GrowFault::BadChunk => out.put(b"BadChunk"),
        GrowFault::NoRoom => out.put(b"NoRoom"),
        GrowFault::Assemble(fault) => put_assembly(out, fault),
        GrowFault::HasBitmap => out.put(b"HasBitmap"),
        GrowFault::NotInSync(device) => number_after(out, b"NotInSync ", device),
        GrowFault::MetadataFault(device) => number_after(out, b"MetadataFault ", device),
        GrowFault::NoMemory => out.put(b"NoMemory"),
    }
}

/// Puts out why a command refuses its options.
pub(crate) fn put_option<S: Sink>(out: &mut S, fault: OptionFault) -> Result<(), SinkFault>
    ensures { PutsOrFails S.contents S.failed out.old out.new (option_text fault) result }
{
    match fault {
        OptionFault::BadLevel => out.put(b"BadLevel"),
        OptionFault::BadUuid => out.put(b"BadUuid"),
        OptionFault::BadName => out.put(b"BadName"),
        OptionFault::BadCount => out.put(b"BadCount"),
        OptionFault::BadBitmap => out.put(b"BadBitmap"),
        OptionFault::BadChunk => out.put(b"BadChunk"),
        OptionFault::BadSize => out.put(b"BadSize"),
        OptionFault::MapOfTarget => out.put(b"MapOfTarget"),
        OptionFault::DataOf(fault) => put_data_of(out, fault),
    }
}

// Puts out why `--data-of` is refused.
fn put_data_of<S: Sink>(out: &mut S, fault: DataOfFault) -> Result<(), SinkFault>
    ensures { PutsOrFails S.contents S.failed out.old out.new (data_of_text fault) result }
{
    match fault {
        DataOfFault::BadDataOf => out.put(b"BadDataOf"),
        DataOfFault::NoArrayBeside => out.put(b"NoArrayBeside"),
        DataOfFault::NumberTaken(image) => number_after(out, b"NumberTaken ", image),
        DataOfFault::NumberNotInSync => out.put(b"NumberNotInSync"),
        DataOfFault::HasSuperblock => out.put(b"HasSuperblock"),
        DataOfFault::DataElsewhere => out.put(b"DataElsewhere"),
        DataOfFault::LogUnread => out.put(b"LogUnread"),
        DataOfFault::DataPastEnd => out.put(b"DataPastEnd"),
        DataOfFault::NoMemory => out.put(b"NoMemory"),
    }
}
