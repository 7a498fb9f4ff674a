// Commands over images in memory.
use crate::checks::{holds, reads};
use crate::errors::Errors;
use crate::images::{HeldImages, Image, MEMBER, expect_kept_under, held_images};
use crate::silent::{Nobody, Silent};
use crate::sources::{Step, Steps};
use md_cli::{Session, run};
use md_streams::{Input, Messages, Output, Sink, Source};
use md_words::parse;
use std::alloc::Global;
use std::process::Abort;
use std::sync::Wait;
use std::test::Fail;
use std::thread::Threads;

// Images, a command on them, and what comes of it: its status, what it says on the errors, and what it shows.
#[derive(Drop)]
pub(crate) struct Case {
    pub(crate) images: &'static [Image],
    pub(crate) words: &'static [&'static str],
    // What the reads of its input answer.
    pub(crate) input: &'static [Step],
    // How many bytes it tells that they give.
    pub(crate) told: Option<u64>,
    pub(crate) messages: Messages,
    pub(crate) status: u8,
    pub(crate) says: &'static str,
    pub(crate) shows: &'static str,
    // These images have the bytes of the vault's member then.
    pub(crate) kept: &'static [&'static str],
}

// One over the vault's member that takes, says and shows nothing.
pub(crate) const DONE: Case = Case {
    images: &[MEMBER],
    words: &[],
    input: &[],
    told: None,
    messages: Messages::Plain,
    status: 0,
    says: "",
    shows: "",
    kept: &[],
};

// A run with these words on the errors. Its status.
fn runs<'a, R: Abort + Threads + Wait + Sync, I: Source + Drop, S: Sink + Drop>(
    session: &mut Session<'_, R, I, S, Silent, Nobody>,
    words: &'a [&'a str],
    images: &mut HeldImages,
    messages: Messages,
    says: &str,
) -> Result<u8, Fail> {
    let mut err = Errors::new(session.alloc);
    let parsed = parse(session.alloc, words);
    let status = run(session, words, parsed, images, &mut err, messages);
    reads(session.rt, "the errors", err.text(), says);
    drop(err);
    Ok(status)
}

pub(crate) fn give<R: Abort + Threads + Wait + Sync>(
    rt: &R,
    alloc: Global,
    images: &mut HeldImages,
    case: &Case,
) -> Result<(), Fail> {
    let mut session = Session {
        rt,
        alloc,
        input: Input::of_length(Steps { steps: case.input }, case.told),
        out: Output::new(vec![in alloc]?),
        watch: &Silent,
        asker: Nobody,
        random_bytes: None,
        gaps: None,
        is_all_out: false,
        stands: 0,
        stand_in: None,
        mismatched: None,
        lacking: &[],
    };
    let status = runs(&mut session, case.words, images, case.messages, case.says)?;
    holds(rt, "the status", status == case.status);
    let shown: Vec<u8> = session.out.into_inner();
    reads(rt, "the output", &shown, case.shows);
    drop(shown);
    Ok(())
}

fn give_and_look<R: Abort + Threads + Wait + Sync>(
    rt: &R,
    alloc: Global,
    images: &mut HeldImages,
    case: &Case,
) -> Result<(), Fail> {
    give(rt, alloc, images, case)?;
    for name in case.kept {
        expect_kept_under(rt, alloc, images, name)?;
    }
    Ok(())
}

pub(crate) fn play<R: Abort + Threads + Wait + Sync>(
    rt: &R,
    alloc: Global,
    cases: &[Case],
) -> Result<(), Fail> {
    for case in cases {
        let mut images = held_images(alloc, case.images)?;
        let given = give_and_look(rt, alloc, &mut images, case);
        drop(images);
        given?;
    }
    Ok(())
}

fn give_each<R: Abort + Threads + Wait + Sync>(
    rt: &R,
    alloc: Global,
    images: &mut HeldImages,
    cases: &[Case],
) -> Result<(), Fail> {
    for case in cases {
        give(rt, alloc, images, case)?;
    }
    Ok(())
}

// The cases one after the other on these images. Those of the cases themselves are not asked.
pub(crate) fn play_in_turn<R: Abort + Threads + Wait + Sync>(
    rt: &R,
    alloc: Global,
    images: &[Image],
    parts: &[&[Case]],
) -> Result<(), Fail> {
    let mut held = held_images(alloc, images)?;
    for cases in parts {
        if let Err(fault) = give_each(rt, alloc, &mut held, cases) {
            drop(held);
            return Err(fault);
        }
    }
    drop(held);
    Ok(())
}
