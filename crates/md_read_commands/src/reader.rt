// An array as a store of sectors that are only read.
ghost use Rattle.std.specs.Prelude.{◌≡◌, ◌/◌, ◌%◌, ◌≤◌, IfErr, MatchResult, length};
ghost use Rattle.md_array.specs.Consistency.{IsConsistent};
ghost use Rattle.md_state.specs.Rests.{Rests};
ghost use Rattle.md_read_commands.specs.Holes.{HasSameRoom, capacity_of};
ghost use Rattle.md_nbd.specs.declared.server.store.StoreFault.TheVariants.{NoMemory as NoMemoryFault};
ghost use Rattle.md_read_commands.specs.Serving.{FillsRequest, FillsUnnotedRequest, LacksAsTold, LacksSector};
ghost use Rattle.md_read_commands.specs.Ways.{MayReadBy, ReadsBy};

use crate::filling::fill_piece;
use crate::holes::Holes;
use crate::noting::note_all;
use crate::way::{Way, read_by};
use md_array::Mirror;
use md_device::Device;
use md_nbd::{Store, StoreFault};
use md_streams::Gaps;
use std::alloc::{AllocError, Global};

/// How an array is served that is only read, and which of its sectors were not given in this way.
#[derive(Drop)]
pub(crate) struct ArrayReader {
    pub(crate) alloc: Global,
    pub(crate) way: Way,
    /// Whether such sectors are filled with what another member has, or zeros.
    pub(crate) fill: bool,
    pub(crate) gaps: Gaps,
    /// Room for those of a request.
    pub(crate) holes: Holes,
}

// Reads the sectors of a request, if each of them is given.
fn read_given<D: Device + Drop>(
    mirror: &mut Mirror<D>,
    way: Way,
    sector: u64,
    buf: &mut [u8],
) -> Result<(), StoreFault>
    requires whole { length buf.old % 512 ≡ 0 }
    requires may { MayReadBy way mirror.old.array sector (length buf.old / 512) }
    requires sound { IsConsistent mirror.old }
    ensures gives { MatchResult result
        (λ _. ReadsBy way sector buf.new mirror.old mirror.new)
        (λ _. LacksSector way sector (length buf.old / 512) mirror.old mirror.new) }
    ensures why { IfErr result (LacksAsTold way sector (length buf.old / 512) mirror.old mirror.new) }
    ensures rests { Rests mirror.old mirror.new }
    ensures sound { IsConsistent mirror.new }
{
    match read_by(mirror, way, sector, buf) {
        Ok(()) => Ok(()),
        Err(unread) => Err(StoreFault::Lacks(unread.sector)),
    }
}

// Reads them, and fills those that are not given, which are noted: all of them, or none where there is no memory for that. Only that
// ends it with a fault, once all are read.
fn read_filled<D: Device + Drop>(
    alloc: Global,
    mirror: &mut Mirror<D>,
    way: Way,
    sector: u64,
    buf: &mut [u8],
    holes: &mut Holes,
    noted: &mut Gaps,
) -> Result<(), StoreFault>
    requires whole { length buf.old % 512 ≡ 0 }
    requires room { length buf.old / 512 ≤ capacity_of holes.old }
    requires may { MayReadBy way mirror.old.array sector (length buf.old / 512) }
    requires sound { IsConsistent mirror.old }
    ensures gives { MatchResult result
        (λ _. FillsRequest way sector buf.new noted.old noted.new mirror.old mirror.new)
        (λ _. FillsUnnotedRequest way sector (length buf.old / 512) mirror.old mirror.new
        × (noted.new ≡ noted.old)) }
    ensures lacks { IfErr result (λ _. LacksSector way sector (length buf.old / 512) mirror.old mirror.new) }
    ensures why { IfErr result (λ why. why ≡ NoMemoryFault) }
    ensures room { HasSameRoom holes.old holes.new }
    ensures rests { Rests mirror.old mirror.new }
    ensures sound { IsConsistent mirror.new }
{
    holes.clear();
    fill_piece(mirror, way, sector, buf, holes);
    match note_all(alloc, noted, holes) {
        Ok(()) => Ok(()),
        Err(AllocError) => Err(StoreFault::NoMemory),
    }
}

impl<D: Device + Drop> Store<Mirror<D>> for ArrayReader {
    ghost use Rattle.std.specs.Prelude.{◌≡◌};
    ghost use Rattle.md_nbd.specs.declared.server.store.StoreFault.TheVariants.{NotWritten};
    ghost use Rattle.md_read_commands.specs.Serving.{GivesRequest, MayBeServed, RefusesRequest, WhyRefused};

    ghost is_sound = { λ p. MayBeServed p.0.way p.1 };

    ghost sectors = { λ p. p.1.array.chunks.size };

    ghost reads = { λ p q sector bytes. GivesRequest p q sector bytes };

    ghost unread = { λ p q sector sectors. RefusesRequest p q sector sectors };

    ghost why_unread = { λ p q sector sectors why. WhyRefused p q sector sectors why };

    ghost writes = { λ _ _ _ _ _. ⊥ };

    ghost unwritten = { λ p q _ _. q ≡ p };

    ghost why_unwritten = { λ _ _ _ _ why. why ≡ NotWritten };

    ghost flushes = { λ p q. q ≡ p };

    ghost unflushed = { λ _ _. ⊥ };

    ghost why_unflushed = { λ _ _ _. ⊥ };

    ghost rests = { λ p q. q ≡ p };

    fn read(
        &mut self,
        lent: &mut Mirror<D>,
        sector: u64,
        buf: &mut [u8],
    ) -> Result<(), StoreFault> {
        let (alloc, way) = (self.alloc, self.way);
        if self.fill && buf.len() / 512 <= self.holes.capacity() {
            let (holes, gaps) = (&mut self.holes, &mut self.gaps);
            return read_filled(alloc, lent, way, sector, buf, holes, gaps);
        }
        read_given(lent, way, sector, buf)
    }

    // The export says that it is only read, so that none comes here.
    fn write(&mut self, _: &mut Mirror<D>, _: u64, _: &[u8], _: bool) -> Result<(), StoreFault> {
        Err(StoreFault::NotWritten)
    }

    fn flush(&mut self, _: &mut Mirror<D>) -> Result<(), StoreFault> {
        Ok(())
    }

    fn rest(&mut self, _: &mut Mirror<D>) -> Result<(), StoreFault> {
        Ok(())
    }
}
