// A reader of which some reads are interrupted.
use std::io::{Error, ErrorKind, Read, Result as IoResult};

// What one read answers.
pub(crate) enum Step {
    Gives(&'static [u8]),
    IsInterrupted,
}

// A reader that answers by these steps, and is at its end after them.
#[derive(Drop)]
pub(crate) struct Steps<'a> {
    pub(crate) steps: &'a [Step],
}

impl<'a> Read for Steps<'a> {
    fn read(&mut self, buf: &mut [u8]) -> IoResult<usize> {
        let Some((step, rest)) = self.steps.split_first() else {
            return Ok(0);
        };
        self.steps = rest;
        match step {
            Step::Gives(bytes) => {
                let count = bytes.len().min(buf.len());
                buf[..count].copy_from_slice(&bytes[..count]);
                Ok(count)
            }
            Step::IsInterrupted => Err(Error::new(ErrorKind::Interrupted, "a signal came")),
        }
    }
}
