// A rebuild, a check, a read, a write or a refused request that nobody watches, and a question that nobody sees.
ghost use Rattle.std.specs.Prelude.{⊤, false};

use md_badblocks::Run;
use md_nbd::{ClientWatch, RefusedRequest};
use md_streams::{Asker, FillWatch, Gate, ReadWatch, Watch};

/// Is told of a rebuild, a check, a read or a write, and says nothing of it.
pub(crate) struct Silent;

impl Gate for Silent {
    ghost read_begins = { λ _ _ _. ⊤ };

    ghost read_ended = { λ _ _ _. ⊤ };

    fn before_read(&self, _source: u8, _chunk: u32) {}

    fn after_read(&self, _source: u8, _chunk: u32) {}
}

impl Watch for Silent {
    ghost lacks = { λ _ _ _. ⊤ };

    ghost taken_up = { λ _ _ _ _ _. ⊤ };

    ghost compares = { λ _ _. ⊤ };

    ghost writes = { λ _ _. ⊤ };

    ghost has_written = { λ _ _. ⊤ };

    fn begins(&self, _chunks: u32, _first: Option<u32>) {}

    fn takes_up(&self, _member: usize, _missing: u32, _first: Option<u32>, _chunks: u32) {}

    fn begins_check(&self, _sectors: u64) {}

    fn begins_write(&self, _sectors: u64) {}

    fn wrote(&self, _sectors: u64) {}
}

impl ClientWatch for Silent {
    ghost has_refused = { λ _ _. ⊤ };

    ghost says_rested = { λ _ _. ⊤ };

    fn refuses(&self, _refused: RefusedRequest) {}

    fn has_rested(&self) -> bool {
        false
    }
}

impl FillWatch for Silent {
    ghost misses = { λ _ _. ⊤ };

    ghost takes = { λ _ _. ⊤ };

    fn lacks(&self, _missing: &[Run], _others: &[Run]) {}
}

impl ReadWatch for Silent {
    ghost reads = { λ _ _. ⊤ };

    fn begins_read(&self, _sectors: u64) {}
}

/// Nobody sees what is asked.
#[derive(Drop)]
pub(crate) struct Nobody;

impl Asker for Nobody {
    ghost shows = { λ _. false };

    ghost told_first = { λ _. false };

    ghost asks = { λ _ _ _ _. ⊤ };

    fn is_there(&self) -> bool {
        false
    }

    fn is_told_first(&self) -> bool {
        false
    }

    fn goes_on(&mut self, _lines: &[u8]) -> bool {
        true
    }
}
