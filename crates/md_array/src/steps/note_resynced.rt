// Noting whether the array is resynced.
ghost use Rattle.std.specs.Prelude.{true, false};
ghost use Rattle.md_model.specs.Events.{Event};
ghost use Rattle.md_inflight.specs.Requests.Pending.{PendingView};
ghost use Rattle.md_state.specs.Steps.MakeClean.{IsIdle};
ghost use Rattle.md_state.specs.Requests.{IsPending};
ghost use Rattle.md_array.specs.Consistency.{IsConsistent};
ghost use Rattle.md_array.specs.Events.{Happens};
ghost use Rattle.md_array.specs.Steps.NoteResynced.{AllAgreeWhereMarked, AreNoted, BecomesResynced, NotesResynced};

use crate::mirror::Mirror;
use md_device::Device;

impl<D: Device + Drop> Mirror<D> {
    /// Notes that the array is resynced: members in sync agree in the marked chunks, and in the others
    /// they always do. Each of them has the marks stored. It uses no device, and takes no memory.
    pub fn note_resynced(&mut self)
        requires sound { IsConsistent self.old }
        requires idle { IsIdle self.old.array }
        requires agree { AllAgreeWhereMarked self.old }
        requires stored { AreNoted self.old.array }
        ensures gives { BecomesResynced self.old self.new }
        ensures event { Happens self.old Event.Resynced self.new }
        ensures sound { IsConsistent self.new }
        ensures pending { (p : PendingView) → IsPending self.old.array p → IsPending self.new.array p }
    {
        self.array.note_resynced(true);
    }

    /// Notes that the array is not resynced, where copying sectors did not come to its end. It uses no
    /// device, and takes no memory.
    pub fn note_unresynced(&mut self)
        requires sound { IsConsistent self.old }
        requires idle { IsIdle self.old.array }
        ensures gives { NotesResynced false self.old self.new }
        ensures event { Happens self.old Event.Unresynced self.new }
        ensures sound { IsConsistent self.new }
        ensures pending { (p : PendingView) → IsPending self.old.array p → IsPending self.new.array p }
    {
        self.array.note_resynced(false);
    }
}
