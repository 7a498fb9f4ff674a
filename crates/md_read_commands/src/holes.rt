// Which sectors of a piece or request could not be read in the way that was chosen.
ghost use Rattle.std.specs.Prelude.{◌≡◌, ◌↔◌, ◌≤◌, IfOk, [], true};
ghost use Rattle.md_streams.specs.Gaps.{HasNoGaps};
ghost use Rattle.md_read_commands.specs.Holes.{HasRoomForMore, HasSameRoom, capacity_of, gaps_of};

use md_badblocks::Run;
use std::alloc::{AllocError, Global};

/// The gaps of one piece or request, before they are noted beside earlier ones. To add one takes no memory while there is room.
#[derive(Drop)]
pub(crate) struct Holes {
    pub(crate) missing: Vec<Run>,
    pub(crate) others: Vec<Run>,
}

impl Holes {
    /// Room for so many sectors of each kind.
    pub(crate) fn with_capacity(alloc: Global, sectors: usize) -> Result<Holes, AllocError>
        ensures { IfOk result (λ holes. sectors ≤ capacity_of holes) }
    {
        Ok(Holes {
            missing: Vec::with_capacity(alloc, sectors)?,
            others: Vec::with_capacity(alloc, sectors)?,
        })
    }

    /// For how many sectors there is room, whichever kind they are of.
    pub(crate) fn capacity(&self) -> usize
        ensures { result ≡ capacity_of self.now }
    {
        self.missing.capacity().min(self.others.capacity())
    }

    /// Whether there are none.
    pub(crate) fn is_empty(&self) -> bool
        ensures { (result ≡ true) ↔ HasNoGaps (gaps_of self.now) }
    {
        self.missing.is_empty() && self.others.is_empty()
    }

    pub(crate) fn clear(&mut self)
        ensures missing { self.new.missing.items ≡ [] }
        ensures others { self.new.others.items ≡ [] }
        ensures empty { HasRoomForMore (capacity_of self.old) self.new }
        ensures room { HasSameRoom self.old self.new }
    {
        self.missing.clear();
        self.others.clear();
    }
}
