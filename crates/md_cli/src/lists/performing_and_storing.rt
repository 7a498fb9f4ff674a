// Commands with an opened array of which images lack something.
ghost use Rattle.std.specs.Prelude.{◌≡◌, IfOk, false, is_some};
ghost use Rattle.md_array.specs.Consistency.{IsConsistent};
ghost use Rattle.md_words.specs.Asks.{array_ask, compares, device_to_add, fills};
ghost use Rattle.md_messages.specs.Telling.{texts};
ghost use Rattle.md_cli.specs.Asking.{PerformsAndStores, StoresAndPerforms};
ghost use Rattle.md_cli.specs.Opened.{opened_view};
ghost use Rattle.md_cli.specs.Streams.{streams_of};

use crate::lists::storing_lists::{ready_lists, store_lists, stores_early};
use crate::open::Opened;
use crate::performing::perform;
use crate::session::Session;
use md_device::Device;
use md_nbd::ClientWatch;
use md_refusals::CommandFault;
use md_streams::{ReadWatch, Sink, Source};
use md_words::ArrayCommand;
use std::sync::Wait;
use std::thread::Threads;

/// Does a command with an opened array. By a rebuild the lists of members whose images lack something are stored before it copies
/// anything, so that no later command takes for data what stands in these places. Before that the array is resynced where it has to be.
pub(crate) fn perform_and_store<
    D: Device + Drop + Send,
    T: Threads + Wait + Sync,
    R: Source + Drop,
    S: Sink + Drop,
    W: ReadWatch + ClientWatch + Sync,
    A: Drop,
>(
    session: &mut Session<'_, T, R, S, W, A>,
    command: ArrayCommand<'_>,
    opened: &mut Opened<D>,
    names: &[&str],
) -> Result<(), CommandFault>
    requires sound { IsConsistent opened.old.mirror }
    requires brings { is_some opened.old.beside ≡ is_some (device_to_add (array_ask command)) }
    ensures performs { PerformsAndStores R.Source S.Sink (texts names.now) session.old.lacking.now
        (array_ask command.entry) (opened_view D.Device opened.old) (opened_view D.Device opened.new)
        (streams_of session.old) (streams_of session.new) result }
    ensures noted { fills (array_ask command.entry) ≡ false → session.new.gaps ≡ session.old.gaps }
    ensures counted { compares (array_ask command.entry) ≡ false
        → session.new.mismatched ≡ session.old.mismatched }
    ensures unasked { session.new.asker ≡ session.old.asker }
    ensures flushed { IfOk result (λ _. S.is_flushed session.new.out) }
{
    ready_lists(session.alloc, command, &mut opened.mirror, session.lacking)?;
    store_and_perform(session, command, opened, names)
}

// Stores lists, where the command does, and does it then.
fn store_and_perform<
    D: Device + Drop + Send,
    T: Threads + Wait + Sync,
    R: Source + Drop,
    S: Sink + Drop,
    W: ReadWatch + ClientWatch + Sync,
    A: Drop,
>(
    session: &mut Session<'_, T, R, S, W, A>,
    command: ArrayCommand<'_>,
    opened: &mut Opened<D>,
    names: &[&str],
) -> Result<(), CommandFault>
    requires sound { IsConsistent opened.old.mirror }
    requires brings { is_some opened.old.beside ≡ is_some (device_to_add (array_ask command)) }
    ensures performs { StoresAndPerforms R.Source S.Sink (texts names.now) session.old.lacking.now
        (array_ask command.entry) (opened_view D.Device opened.old) (opened_view D.Device opened.new)
        (streams_of session.old) (streams_of session.new) result }
    ensures noted { fills (array_ask command.entry) ≡ false → session.new.gaps ≡ session.old.gaps }
    ensures counted { compares (array_ask command.entry) ≡ false
        → session.new.mismatched ≡ session.old.mismatched }
    ensures unasked { session.new.asker ≡ session.old.asker }
    ensures flushed { IfOk result (λ _. S.is_flushed session.new.out) }
{
    if !stores_early(command, &opened.mirror) {
        return perform(session, command, opened, names);
    }
    store_lists(&mut opened.mirror, session.lacking)?;
    perform(session, command, opened, names)
}
