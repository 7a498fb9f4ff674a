// Requests of a client.
ghost use Rattle.std.specs.Prelude.{◌≡◌, ◌≤◌, ◌++◌, IfNone, IfSome, OnOk, length};
ghost use Rattle.std.specs.Int.{w16, w32, w64, to_be_bytes};
ghost use Rattle.md_nbd.specs.Export.{most_bytes};
ghost use Rattle.md_nbd.specs.NbdRequests.{payload_of, request_bytes, request_magic};
ghost use Rattle.md_nbd.specs.declared.request.Request.{Request as RequestValue};

use crate::export::MOST_BYTES;
use crate::number_fields::{u16_of, u32_of, u64_of};
use std::alloc::AllocError;

const REQUEST_MAGIC: u32 = 0x25609513;

pub(crate) const CMD_READ: u16 = 0;

pub(crate) const CMD_WRITE: u16 = 1;

pub(crate) const CMD_DISC: u16 = 2;

pub(crate) const CMD_FLUSH: u16 = 3;

pub(crate) const FLAG_FUA: u16 = 1;

/// How many bytes the head of a request has. What it writes comes after them.
pub const REQUEST_BYTES: usize = 28;

/// The head of a request.
#[derive(Clone, Copy, Debug, PartialEq, Eq)]
pub struct Request {
    pub flags: u16,
    /// Which command it is.
    pub kind: u16,
    /// The client's name for the request: its reply carries it.
    pub cookie: u64,
    /// In bytes.
    pub offset: u64,
    /// In bytes.
    pub length: u32,
}

/// The request whose head some bytes are; none where they are none.
pub fn decode_request(bytes: &[u8]) -> Option<Request>
    requires { length bytes.now ≡ 28 }
    ensures found { IfSome result (λ request. bytes.now ≡ request_bytes request) }
    ensures none { IfNone result ((request : RequestValue) → bytes.now ≡ request_bytes request → ⊥) }
{
    let (magic, rest) = u32_of(bytes);
    if magic != REQUEST_MAGIC {
        return None;
    }
    let (flags, rest) = u16_of(rest);
    let (kind, rest) = u16_of(rest);
    let (cookie, rest) = u64_of(rest);
    let (offset, rest) = u64_of(rest);
    let (length, _) = u32_of(rest);
    Some(Request {
        flags,
        kind,
        cookie,
        offset,
        length,
    })
}

/// How many bytes come after the head of a request: those that it writes, also where it is refused.
pub fn payload_of(request: &Request) -> u32
    ensures { result ≡ payload_of request.now }
{
    if request.kind == CMD_WRITE {
        request.length
    } else {
        0
    }
}

/// How much room a request takes that reads or writes no more than the server keeps room for; none where it is longer.
pub(crate) fn room_of(request: &Request) -> u32
    ensures within { request.now.length ≤ most_bytes → result ≡ request.now.length }
    ensures payload { payload_of request.now ≤ most_bytes → payload_of request.now ≤ result }
    ensures most { result ≤ most_bytes }
{
    if request.length <= MOST_BYTES {
        request.length
    } else {
        0
    }
}

/// Writes the head of a request, as a client does.
pub fn put_request(out: &mut Vec<u8>, request: &Request) -> Result<(), AllocError>
    ensures { OnOk result (out.new.items ≡ out.old.items ++ request_bytes request.now) }
{
    put_command(out, request.flags, request.kind)?;
    put_range(out, request.cookie, request.offset, request.length)?;
    Ok(())
}

fn put_command(out: &mut Vec<u8>, flags: u16, kind: u16) -> Result<(), AllocError>
    ensures { OnOk result (out.new.items
        ≡ out.old.items ++ to_be_bytes w32 request_magic ++ to_be_bytes w16 flags ++ to_be_bytes w16 kind) }
{
    out.extend_from_slice(&REQUEST_MAGIC.to_be_bytes())?;
    out.extend_from_slice(&flags.to_be_bytes())?;
    out.extend_from_slice(&kind.to_be_bytes())?;
    Ok(())
}

fn put_range(out: &mut Vec<u8>, cookie: u64, offset: u64, length: u32) -> Result<(), AllocError>
    ensures { OnOk result (out.new.items
        ≡ out.old.items ++ to_be_bytes w64 cookie ++ to_be_bytes w64 offset ++ to_be_bytes w32 length) }
{
    out.extend_from_slice(&cookie.to_be_bytes())?;
    out.extend_from_slice(&offset.to_be_bytes())?;
    out.extend_from_slice(&length.to_be_bytes())?;
    Ok(())
}
