// The question where members in sync are not among the images.
ghost use Rattle.std.specs.Prelude.{◌≡◌, IfOk};
ghost use Rattle.md_messages.specs.Question.{absent_question};
ghost use Rattle.md_messages.specs.Telling.{unnamed_lines};

use crate::notices::Notices;
use crate::telling::put_all_unnamed;
use md_refusals::CommandFault;
use md_streams::{Asker, Output, SinkFault};
use std::alloc::Global;

/// Asks whether a command goes on without a member in sync that is not among the images: once, and the answer stands.
/// Without memory for the lines that are asked with it does not.
pub fn ask_of_absent<A: Asker>(
    alloc: Global,
    asker: &mut A,
    notices: &Notices,
) -> Result<(), CommandFault>
    ensures { absent_question A.Asker notices.now asker.old asker.new result }
{
    let Some(role) = notices.absent_role() else {
        return Ok(());
    };
    if !asker.is_there() {
        return Ok(());
    }
    let Ok(lines) = absent_lines(alloc, notices) else {
        return Err(CommandFault::NoMemory);
    };
    if asker.goes_on(&lines) {
        Ok(())
    } else {
        Err(CommandFault::NotAll(role))
    }
}

// Which devices were not named.
fn absent_lines(alloc: Global, notices: &Notices) -> Result<Vec<u8>, SinkFault>
    ensures { IfOk result (λ lines. lines.items ≡ unnamed_lines notices.now) }
{
    let mut out = Output::new(Vec::new(alloc));
    put_all_unnamed(&mut out, notices)?;
    Ok(out.into_inner())
}
