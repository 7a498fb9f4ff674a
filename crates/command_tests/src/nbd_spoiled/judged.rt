// What a client should have heard for what it said. Both are read again here, by the rules of the protocol and of a plain store:
// nothing of the server is used but the names of its ends.
use md_nbd::{Gone, Haggled, SessionEnd};

/// How many bytes are served.
pub(crate) const SIZE: u64 = 0x1000;

/// A sector that can be neither read nor written.
pub(crate) const FLAW: u64 = 5;

/// What is wrong with what a client heard.
#[derive(Clone, Copy, Debug, PartialEq, Eq)]
pub(crate) enum Wrong {
    Greeting,
    /// The answer to EXPORT_NAME.
    Export,
    OptionReply,
    /// It is no reply, or one to another request.
    Reply,
    /// A request is done that should be refused, or refused that should be done.
    Answer,
    /// Other bytes than those that stand there.
    Sectors,
    /// More than all replies.
    More,
    Endless,
}

/// How often each thing came in all sessions.
#[derive(Clone, Copy, Debug, Default, PartialEq, Eq)]
pub(crate) struct Counts {
    pub(crate) read: u32,
    pub(crate) written: u32,
    pub(crate) failed: u32,
    pub(crate) refused: u32,
}

// Bytes that are read from the front on.
#[derive(Drop)]
struct Bytes<'a> {
    rest: &'a [u8],
}

impl<'a> Bytes<'a> {
    fn take(&mut self, count: usize) -> Option<&'a [u8]> {
        if self.rest.len() < count {
            return None;
        }
        let (front, rest) = self.rest.split_at(count);
        self.rest = rest;
        Some(front)
    }

    // A number of so many bytes, the highest first; all ones where it is cut off.
    fn number(&mut self, count: usize) -> u64 {
        let Some(bytes) = self.take(count) else {
            return u64::MAX;
        };
        let mut number = 0;
        for &byte in bytes {
            number = number << 8 | u64::from(byte);
        }
        number
    }
}

// A request, as it came.
#[derive(Clone, Copy)]
struct Asked<'a> {
    flags: u64,
    kind: u64,
    cookie: u64,
    offset: u64,
    length: u64,
    payload: &'a [u8],
}

impl Asked<'_> {
    fn is_of_sectors(&self) -> bool {
        self.offset % 512 == 0
            && self.length % 512 == 0
            && self.length > 0
            && self.length <= SIZE
            && self.offset <= SIZE - self.length
    }

    fn may_be_done(&self) -> bool {
        self.flags < 2 && (self.kind == 3 || self.kind < 2 && self.is_of_sectors())
    }

    // Whether it is a read or a write of the sector that fails.
    fn meets_flaw(&self) -> bool {
        self.kind != 3 && self.offset / 512 <= FLAW && FLAW < self.offset / 512 + self.length / 512
    }
}

fn check(right: bool, wrong: Wrong) -> Result<(), Wrong> {
    if right { Ok(()) } else { Err(wrong) }
}

// The flags and the size of the export.
fn hear_export(heard: &mut Bytes, wrong: Wrong) -> Result<(), Wrong> {
    check(heard.number(8) == SIZE, wrong)?;
    check(heard.number(2) == 0x0d, wrong)
}

// The replies to an option, and whether the last one is ACK.
fn hear_option_replies(heard: &mut Bytes, option: u64) -> Result<bool, Wrong> {
    let wrong = Wrong::OptionReply;
    for _ in 0..4 {
        check(heard.number(8) == 0x0003_e889_0455_65a9, wrong)?;
        check(heard.number(4) == option, wrong)?;
        let kind = heard.number(4);
        let length = heard.number(4);
        match kind {
            1 => {
                check(length == 0, wrong)?;
                return Ok(true);
            }
            2 => check(option == 3 && length == 4 && heard.number(4) == 0, wrong)?,
            3 => hear_information(heard, length)?,
            _ => {
                check(length == 0 && kind >> 31 == 1, wrong)?;
                return Ok(false);
            }
        }
    }
    Err(Wrong::Endless)
}

// The export, or the sizes of its blocks.
fn hear_information(heard: &mut Bytes, length: u64) -> Result<(), Wrong> {
    let wrong = Wrong::OptionReply;
    match heard.number(2) {
        0 => {
            check(length == 12, wrong)?;
            hear_export(heard, wrong)
        }
        3 => {
            check(length == 14, wrong)?;
            check(heard.number(4) == 512, wrong)?;
            check(heard.number(4) == 4096, wrong)?;
            check(heard.number(4) == 0x200_0000, wrong)
        }
        _ => Err(wrong),
    }
}

// The options that were said, and the answers to them.
fn follow_options(said: &mut Bytes, heard: &mut Bytes, zeros: bool) -> Result<Haggled, Wrong> {
    for _ in 0..u32::MAX {
        if said.rest.len() < 16 {
            return Ok(if said.rest.is_empty() {
                Haggled::Ended
            } else {
                Haggled::Cut
            });
        }
        if said.number(8) != 0x4948_4156_454f_5054 {
            return Ok(Haggled::NoOption);
        }
        let (option, length) = (said.number(4), said.number(4));
        if length > 0x1_0000 {
            return Ok(Haggled::TooLong);
        }
        let Some(body) = said.take(length as usize) else {
            return Ok(Haggled::Cut);
        };
        if option == 1 {
            return follow_export_name(heard, body, zeros);
        }
        let acked = hear_option_replies(heard, option)?;
        match option {
            2 => return Ok(Haggled::Closed),
            7 if acked => return Ok(Haggled::Agreed),
            _ => {}
        }
    }
    Err(Wrong::Endless)
}

fn follow_export_name(heard: &mut Bytes, body: &[u8], zeros: bool) -> Result<Haggled, Wrong> {
    if !body.is_empty() {
        return Ok(Haggled::Closed);
    }
    hear_export(heard, Wrong::Export)?;
    if zeros {
        check(heard.take(124) == Some([0; 124].as_slice()), Wrong::Export)?;
    }
    Ok(Haggled::Agreed)
}

// The requests that were said, and the replies to them.
fn follow_requests(
    said: &mut Bytes,
    heard: &mut Bytes,
    store: &mut [u8],
    counts: &mut Counts,
) -> Result<Gone, Wrong> {
    for _ in 0..u32::MAX {
        if said.rest.len() < 28 {
            return Ok(if said.rest.is_empty() {
                Gone::Ended
            } else {
                Gone::Cut
            });
        }
        if said.number(4) != 0x25609513 {
            return Ok(Gone::NoRequest);
        }
        let mut asked = Asked {
            flags: said.number(2),
            kind: said.number(2),
            cookie: said.number(8),
            offset: said.number(8),
            length: said.number(4),
            payload: &[],
        };
        if asked.kind == 1 {
            if asked.length > 0x200_0000 {
                return Ok(Gone::TooLong);
            }
            let Some(payload) = said.take(asked.length as usize) else {
                return Ok(Gone::Cut);
            };
            asked.payload = payload;
        }
        if asked.kind == 2 {
            return Ok(Gone::Disconnected);
        }
        hear_reply(heard, &asked, store, counts)?;
    }
    Err(Wrong::Endless)
}

// A reply to this request: what it says, and the bytes that were read.
fn hear_reply(
    heard: &mut Bytes,
    asked: &Asked,
    store: &mut [u8],
    counts: &mut Counts,
) -> Result<(), Wrong> {
    check(heard.number(4) == 0x67446698, Wrong::Reply)?;
    let error = heard.number(4);
    check(heard.number(8) == asked.cookie, Wrong::Reply)?;
    if !asked.may_be_done() {
        counts.refused = counts.refused.saturating_add(1);
        return check(matches!(error, 22 | 28 | 75), Wrong::Answer);
    }
    if asked.meets_flaw() {
        counts.failed = counts.failed.saturating_add(1);
        return check(error == 5, Wrong::Answer);
    }
    check(error == 0, Wrong::Answer)?;
    if asked.kind == 3 {
        return Ok(());
    }
    hear_sectors(heard, asked, store, counts)
}

// The sectors of a read that was done, or nothing after a write.
fn hear_sectors(
    heard: &mut Bytes,
    asked: &Asked,
    store: &mut [u8],
    counts: &mut Counts,
) -> Result<(), Wrong> {
    let first = asked.offset as usize;
    let length = asked.length as usize;
    let Some(sectors) = store.get_mut(first..first.saturating_add(length)) else {
        return Err(Wrong::Sectors);
    };
    if asked.kind == 0 {
        counts.read = counts.read.saturating_add(1);
        return check(heard.take(length) == Some(&*sectors), Wrong::Sectors);
    }
    if sectors.len() != asked.payload.len() {
        return Err(Wrong::Sectors);
    }
    sectors.copy_from_slice(asked.payload);
    counts.written = counts.written.saturating_add(1);
    Ok(())
}

fn follow_session(
    said: &mut Bytes,
    heard: &mut Bytes,
    store: &mut [u8],
    counts: &mut Counts,
) -> Result<SessionEnd, Wrong> {
    let greeting = heard.take(18);
    check(
        greeting == Some(b"NBDMAGICIHAVEOPT\x00\x03".as_slice()),
        Wrong::Greeting,
    )?;
    if said.rest.len() < 4 {
        return Ok(SessionEnd::NoFlags);
    }
    let flags = said.number(4);
    if flags > 3 {
        return Ok(SessionEnd::UnknownFlags);
    }
    match follow_options(said, heard, flags < 2)? {
        Haggled::Agreed => {}
        why => return Ok(SessionEnd::Unagreed(why)),
    }
    let gone = follow_requests(said, heard, store, counts)?;
    Ok(SessionEnd::Gone(gone))
}

/// How a session has to end in which this was said, if just this may be heard in it; or what is wrong with that. The store gets the
/// bytes of the writes that were answered without an error.
pub(crate) fn judge(
    said: &[u8],
    heard: &[u8],
    store: &mut [u8],
    counts: &mut Counts,
) -> Result<SessionEnd, Wrong> {
    let mut said = Bytes { rest: said };
    let mut heard = Bytes { rest: heard };
    let end = follow_session(&mut said, &mut heard, store, counts)?;
    check(heard.rest.is_empty(), Wrong::More)?;
    Ok(end)
}
