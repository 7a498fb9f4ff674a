// What words name for a read that may go on.
use md_words::{ArrayCommand, Command, Request};

/// The names of the file and of its map, and the first sector, of words that ask for a read that may go on.
#[derive(Clone, Copy)]
pub struct Names<'a> {
    pub output: &'a str,
    pub map: &'a str,
    pub(crate) sector: u64,
}

impl<'a> Names<'a> {
    /// What the words that were parsed name, where they ask for such a read.
    pub fn of_parsed<E>(parsed: &Result<Request<'a>, E>) -> Option<Names<'a>> {
        let Ok(request) = parsed else {
            return None;
        };
        let Command::Array(ArrayCommand::Read { sector, .. }) = request.command else {
            return None;
        };
        if !request.resume {
            return None;
        }
        Some(Names {
            output: request.output?,
            map: request.map_out?,
            sector,
        })
    }
}
