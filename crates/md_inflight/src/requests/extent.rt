// What a request in flight holds of the array.
ghost use Rattle.std.specs.Prelude.{◌≡◌, []};

use crate::inflight::Inflight;
use crate::span::Span;
use std::alloc::Global;

/// The sectors of the array that a request writes.
#[derive(Clone, Copy)]
pub struct Extent {
    pub start: u64,
    pub sectors: u64,
}

impl Span for Extent {
    ghost start = { λ e. e.start };

    ghost len = { λ e. e.sectors };

    fn start(&self) -> u64
        ensures { result ≡ self.now.start }
    {
        self.start
    }

    fn len(&self) -> u64
        ensures { result ≡ self.now.sectors }
    {
        self.sectors
    }
}

/// No request in flight. The first one gets the number 0.
pub fn no_requests(alloc: Global) -> Inflight<Extent>
    ensures entries { result.entries ≡ [] }
    ensures next { result.next ≡ 0 }
{
    Inflight::new(alloc)
}
