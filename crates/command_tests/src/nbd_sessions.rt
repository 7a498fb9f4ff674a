// The options of a real client, and a whole session, over a source and a sink in memory: memory is taken for each answer.
ghost use Rattle.std.specs.Prelude.{◌/◌, None, false, length, ⊤};

use crate::checks::{holds, same};
use md_nbd::{
    ClientWatch, Export, Gone, Haggled, RefusedRequest, Service, SessionEnd, Store, StoreFault,
    haggle, serve_client,
};
use md_streams::{Sink, SinkFault, Source, SourceFault};
use std::test::Fail;

// Gives these bytes, at most seven at a time.
#[derive(Drop)]
pub(crate) struct Given<'a> {
    pub(crate) bytes: &'a [u8],
}

impl<'a> Source for Given<'a> {
    ghost remaining = { λ _. None };

    ghost failed = { λ _. false };

    ghost told = { λ _. None };

    fn take(&mut self, buf: &mut [u8]) -> Result<usize, SourceFault> {
        let count = buf.len().min(self.bytes.len()).min(7);
        let (front, rest) = self.bytes.split_at(count);
        buf[..count].copy_from_slice(front);
        self.bytes = rest;
        Ok(count)
    }

    fn bytes_left(&self) -> Option<u64> {
        None
    }
}

#[derive(Drop)]
pub(crate) struct Kept {
    pub(crate) bytes: Vec<u8>,
    pub(crate) failed: bool,
}

impl Sink for Kept {
    ghost contents = { λ _. None };

    ghost failed = { λ kept. kept.failed };

    ghost is_flushed = { λ _. ⊤ };

    fn put(&mut self, bytes: &[u8]) -> Result<(), SinkFault> {
        if self.bytes.extend_from_slice(bytes).is_err() {
            self.failed = true;
            return Err(SinkFault);
        }
        Ok(())
    }

    fn flush(&mut self) -> Result<(), SinkFault> {
        Ok(())
    }
}

// As nbdinfo 1.14 sent them: STRUCTURED_REPLY, INFO and GO, both of the empty name with the kinds 3, 1 and 2.
const OPTIONS: [u8; 72] = [
    0x49, 0x48, 0x41, 0x56, 0x45, 0x4f, 0x50, 0x54, 0, 0, 0, 8, 0, 0, 0, 0, 0x49, 0x48, 0x41, 0x56,
    0x45, 0x4f, 0x50, 0x54, 0, 0, 0, 6, 0, 0, 0, 12, 0, 0, 0, 0, 0, 3, 0, 3, 0, 1, 0, 2, 0x49,
    0x48, 0x41, 0x56, 0x45, 0x4f, 0x50, 0x54, 0, 0, 0, 7, 0, 0, 0, 12, 0, 0, 0, 0, 0, 3, 0, 3, 0,
    1, 0, 2,
];

#[test]
fn agrees_with_a_client(rt: HostRuntime) -> Result<(), Fail> {
    let export = Export {
        size: 1 << 26,
        readonly: true,
    };
    let mut buf = Vec::new(rt.alloc());
    buf.resize(65536, 0)?;
    let mut input = Given { bytes: &OPTIONS };
    let mut out = Kept {
        bytes: Vec::new(rt.alloc()),
        failed: false,
    };
    let haggled = haggle(rt.alloc(), &export, true, &mut buf, &mut input, &mut out);
    same(&rt, "the end", haggled, Ok(Haggled::Agreed));
    // An answer that the option is not known, and twice an export, its block sizes and an end.
    same(&rt, "the answers", out.bytes.len(), 20 + 2 * 86);
    holds(&rt, "all was taken", input.bytes.is_empty());
    Ok(())
}

// A store of the bytes that are lent to it, of which no call fails.
#[derive(Drop)]
struct Plain;

impl Store<Vec<u8>> for Plain {
    ghost is_sound = { λ _. ⊤ };

    ghost sectors = { λ p. length p.1.items / 512 };

    ghost reads = { λ _ _ _ _. ⊤ };

    ghost unread = { λ _ _ _ _. ⊤ };

    ghost why_unread = { λ _ _ _ _ _. ⊤ };

    ghost writes = { λ _ _ _ _ _. ⊤ };

    ghost unwritten = { λ _ _ _ _. ⊤ };

    ghost why_unwritten = { λ _ _ _ _ _. ⊤ };

    ghost flushes = { λ _ _. ⊤ };

    ghost unflushed = { λ _ _. ⊤ };

    ghost why_unflushed = { λ _ _ _. ⊤ };

    ghost rests = { λ _ _. ⊤ };

    fn read(&mut self, lent: &mut Vec<u8>, sector: u64, buf: &mut [u8]) -> Result<(), StoreFault> {
        let at = 512 * sector as usize;
        buf.copy_from_slice(&lent[at..at + buf.len()]);
        Ok(())
    }

    fn write(
        &mut self,
        lent: &mut Vec<u8>,
        sector: u64,
        bytes: &[u8],
        _: bool,
    ) -> Result<(), StoreFault> {
        let at = 512 * sector as usize;
        lent[at..at + bytes.len()].copy_from_slice(bytes);
        Ok(())
    }

    fn flush(&mut self, _: &mut Vec<u8>) -> Result<(), StoreFault> {
        Ok(())
    }

    fn rest(&mut self, _: &mut Vec<u8>) -> Result<(), StoreFault> {
        Ok(())
    }
}

// Is told of refused requests, and says nothing of them.
pub(crate) struct Silent;

impl ClientWatch for Silent {
    ghost has_refused = { λ _ _. ⊤ };

    ghost says_rested = { λ _ _. ⊤ };

    fn refuses(&self, _refused: RefusedRequest) {}

    fn has_rested(&self) -> bool {
        true
    }
}

// The flags and GO of libnbd, a WRITE of the sector 1, a READ of the sectors 0 and 1, and DISC.
const OPENING: [u8; 28] = [
    0, 0, 0, 3, 0x49, 0x48, 0x41, 0x56, 0x45, 0x4f, 0x50, 0x54, 0, 0, 0, 7, 0, 0, 0, 8, 0, 0, 0, 0,
    0, 1, 0, 3,
];

const WRITE: [u8; 28] = [
    0x25, 0x60, 0x95, 0x13, 0, 0, 0, 1, 0, 0, 0, 0, 0, 0, 0, 1, 0, 0, 0, 0, 0, 0, 2, 0, 0, 0, 2, 0,
];

const READ: [u8; 28] = [
    0x25, 0x60, 0x95, 0x13, 0, 0, 0, 0, 0, 0, 0, 0, 0, 0, 0, 2, 0, 0, 0, 0, 0, 0, 0, 0, 0, 0, 4, 0,
];

const DISCONNECT: [u8; 28] = [
    0x25, 0x60, 0x95, 0x13, 0, 0, 0, 2, 0, 0, 0, 0, 0, 0, 0, 3, 0, 0, 0, 0, 0, 0, 0, 0, 0, 0, 0, 0,
];

#[test]
fn serves_a_client(rt: HostRuntime) -> Result<(), Fail> {
    let export = Export {
        size: 2048,
        readonly: false,
    };
    let mut said = Vec::new(rt.alloc());
    said.extend_from_slice(&OPENING)?;
    said.extend_from_slice(&WRITE)?;
    said.resize(28 + 28 + 512, b'x')?;
    said.extend_from_slice(&READ)?;
    said.extend_from_slice(&DISCONNECT)?;
    let mut store = vec![in rt.alloc(); b'.'; 2048]?;
    let mut buf = vec![in rt.alloc(); 0; 65536]?;
    let mut input = Given {
        bytes: said.as_slice(),
    };
    let mut out = Kept {
        bytes: Vec::new(rt.alloc()),
        failed: false,
    };
    let service = Service {
        export: &export,
        watch: &Silent,
    };
    let ended = serve_client(
        rt.alloc(),
        &service,
        &mut Plain,
        &mut store,
        &mut buf,
        &mut input,
        &mut out,
    );
    same(
        &rt,
        "the end",
        ended,
        Ok(SessionEnd::Gone(Gone::Disconnected)),
    );
    // The greeting, an export, its block sizes and an end, and two replies, of which one has the sectors.
    same(
        &rt,
        "what was answered",
        out.bytes.len(),
        18 + 86 + 16 + 16 + 1024,
    );
    holds(&rt, "what was written", store[512..1024] == [b'x'; 512]);
    drop(store);
    Ok(())
}
