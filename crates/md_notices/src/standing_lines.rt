// The line that says of which array a device is.
ghost use Rattle.std.specs.Prelude.{◌≡◌};
ghost use Rattle.uuid.specs.Text.{hyphenated_text, lower};
ghost use Rattle.md_streams.specs.Sink.{PutsOrFails};
ghost use Rattle.md_notices.specs.Lines.{state_role_text, identity_text, there_text};

use crate::belonging::standing;
use md_assembly::MemberState;
use md_streams::{Sink, SinkFault, number_after, put_name};
use md_super::Superblock;
use uuid::Uuid;

fn role<S: Sink>(out: &mut S, state: MemberState) -> Result<(), SinkFault>
    ensures { PutsOrFails S.contents S.failed out.old out.new (state_role_text state) result }
{
    match state {
        MemberState::InSync(role) | MemberState::Recovering(role) | MemberState::Stale(role) => {
            number_after(out, b" in role ", role)
        }
        MemberState::Spare | MemberState::Faulty => out.put(b""),
    }
}

fn set<S: Sink>(out: &mut S, id: &Uuid) -> Result<(), SinkFault>
    ensures { PutsOrFails S.contents S.failed out.old out.new (hyphenated_text lower id.now) result }
{
    let mut buffer = Uuid::encode_buffer();
    let text = id.hyphenated().encode_lower(&mut buffer);
    out.put(text.as_bytes())
}

fn there<S: Sink>(out: &mut S, state: MemberState) -> Result<(), SinkFault>
    ensures { PutsOrFails S.contents S.failed out.old out.new (there_text state) result }
{
    match state {
        MemberState::InSync(_) => out.put(b", in sync there\n"),
        MemberState::Recovering(_) => out.put(b", recovering there\n"),
        MemberState::Stale(_) => out.put(b", stale there\n"),
        MemberState::Spare => out.put(b", a spare there\n"),
        MemberState::Faulty => out.put(b", faulty there\n"),
    }
}

/// Says of which array the device with this superblock is, and what it is there. It takes no memory, and fails only
/// where the sink has failed.
pub fn standing_line<S: Sink>(out: &mut S, name: &str, own: &Superblock) -> Result<(), SinkFault>
    ensures { PutsOrFails S.contents S.failed out.old out.new (identity_text name.now own.now) result }
{
    let state = standing(own);
    out.put(b"mdcli: ")?;
    put_name(out, name)?;
    number_after(out, b": is device ", own.dev_number)?;
    role(out, state)?;
    out.put(b" of array ")?;
    set(out, &own.set_uuid)?;
    there(out, state)?;
    Ok(())
}
