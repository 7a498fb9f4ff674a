// Sessions of clients that say what the protocol does not know: each ends, what is heard in it is the replies to what was said and
// nothing more, and the store has what was written and else what it had.
ghost use Rattle.std.specs.Prelude.{◌/◌, length, ⊤};

mod drawn;
mod judged;

use crate::dice::Dice;
use crate::nbd_sessions::{Given, Kept, Silent};
use drawn::Said;
use judged::{Counts, FLAW, SIZE, Wrong, judge};
use md_nbd::{Export, Service, SessionEnd, SessionFault, Store, StoreFault, serve_client};
use std::alloc::{AllocError, Global};
use std::process::Abort;
use std::test::Fail;

const SESSIONS: u64 = 100_000;

// How often at least each thing has to come in all sessions.
const LEAST: u32 = 10_000;

// A store of the bytes that are lent to it, of which one sector fails.
#[derive(Drop)]
struct Flawed;

fn has_flaw(sector: u64, bytes: usize) -> bool {
    sector <= FLAW && FLAW - sector < bytes as u64 / 512
}

impl Store<Vec<u8>> for Flawed {
    ghost is_sound = { λ _. ⊤ };

    ghost sectors = { λ p. length p.1.items / 512 };

    ghost reads = { λ _ _ _ _. ⊤ };

    ghost unread = { λ _ _ _ _. ⊤ };

    ghost why_unread = { λ _ _ _ _ _. ⊤ };

    ghost writes = { λ _ _ _ _ _. ⊤ };

    ghost unwritten = { λ _ _ _ _. ⊤ };

    ghost why_unwritten = { λ _ _ _ _ _. ⊤ };

    ghost flushes = { λ _ _. ⊤ };

    ghost unflushed = { λ _ _. ⊤ };

    ghost why_unflushed = { λ _ _ _. ⊤ };

    ghost rests = { λ _ _. ⊤ };

    fn read(&mut self, lent: &mut Vec<u8>, sector: u64, buf: &mut [u8]) -> Result<(), StoreFault> {
        if has_flaw(sector, buf.len()) {
            return Err(StoreFault::Lacks(FLAW));
        }
        let at = 512 * sector as usize;
        buf.copy_from_slice(&lent[at..at + buf.len()]);
        Ok(())
    }

    fn write(
        &mut self,
        lent: &mut Vec<u8>,
        sector: u64,
        bytes: &[u8],
        _: bool,
    ) -> Result<(), StoreFault> {
        if has_flaw(sector, bytes.len()) {
            return Err(StoreFault::Lacks(FLAW));
        }
        let at = 512 * sector as usize;
        lent[at..at + bytes.len()].copy_from_slice(bytes);
        Ok(())
    }

    fn flush(&mut self, _: &mut Vec<u8>) -> Result<(), StoreFault> {
        Ok(())
    }

    fn rest(&mut self, _: &mut Vec<u8>) -> Result<(), StoreFault> {
        Ok(())
    }
}

// What all sessions use, one after another.
#[derive(Drop)]
struct Stage {
    said: Said,
    heard: Kept,
    buf: Vec<u8>,
    store: Vec<u8>,
    model: Vec<u8>,
    counts: Counts,
}

fn expect_end(
    rt: &impl Abort,
    seed: u64,
    ended: Result<SessionEnd, SessionFault>,
    judged: Result<SessionEnd, Wrong>,
) {
    let (ended, wanted) = (ended.ok(), judged.ok());
    assert!(rt;
        ended.is_some() && ended == wanted,
        "session {seed}: {ended:?}, and it should be {judged:?}"
    );
}

fn expect_store(rt: &impl Abort, seed: u64, store: &[u8], wanted: &[u8]) {
    assert!(rt;
        store == wanted,
        "session {seed}: the store has other bytes"
    );
}

// Serves a client that says what this seed draws.
fn serve(rt: &impl Abort, alloc: Global, stage: &mut Stage) -> Result<SessionEnd, SessionFault> {
    let room = stage.buf.len() >= 65536 && stage.store.len() == SIZE as usize;
    assert!(rt; room, "room");
    let export = Export {
        size: SIZE,
        readonly: false,
    };
    let mut input = Given {
        bytes: stage.said.bytes.as_slice(),
    };
    let service = Service {
        export: &export,
        watch: &Silent,
    };
    serve_client(
        alloc,
        &service,
        &mut Flawed,
        &mut stage.store,
        &mut stage.buf,
        &mut input,
        &mut stage.heard,
    )
}

fn expect_session(
    rt: &impl Abort,
    alloc: Global,
    stage: &mut Stage,
    seed: u64,
) -> Result<(), AllocError> {
    let mut dice = Dice::of_seed(seed);
    stage.said.draw(&mut dice)?;
    for _ in 0..dice.below(4) {
        stage.said.spoil(&mut dice)?;
    }
    stage.heard.bytes.clear();
    let ended = serve(rt, alloc, stage);
    let (said, heard) = (&stage.said.bytes, &stage.heard.bytes);
    let judged = judge(said, heard, &mut stage.model, &mut stage.counts);
    expect_end(rt, seed, ended, judged);
    expect_store(rt, seed, &stage.store, &stage.model);
    Ok(())
}

// Each thing came in so many sessions that they tell something of it.
fn expect_each(rt: &impl Abort, counts: Counts) {
    let least = counts
        .read
        .min(counts.written)
        .min(counts.failed)
        .min(counts.refused);
    assert!(rt; least > LEAST, "{counts:?}");
}

#[test]
fn spoiled_sessions_end(rt: HostRuntime) -> Result<(), Fail> {
    let mut stage = Stage {
        said: Said::new(rt.alloc()),
        heard: Kept {
            bytes: Vec::new(rt.alloc()),
            failed: false,
        },
        buf: vec![in rt.alloc(); 0; 65536]?,
        store: vec![in rt.alloc(); b'.'; SIZE as usize]?,
        model: vec![in rt.alloc(); b'.'; SIZE as usize]?,
        counts: Counts::default(),
    };
    for seed in 0..SESSIONS {
        expect_session(&rt, rt.alloc(), &mut stage, seed)?;
    }
    expect_each(&rt, stage.counts);
    Ok(())
}
