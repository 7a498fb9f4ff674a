// A request is taken from the source.
ghost use Rattle.std.specs.Prelude.{◌≡◌, ◌≤◌, IfOk, MatchResult, OnOk, length, take, true};
ghost use Rattle.md_nbd.specs.Export.{most_bytes};
ghost use Rattle.md_streams.specs.FrontFilled.{FillsFrontOf};
ghost use Rattle.md_nbd.specs.Server.RequestsTaken.{FailsToTake, TakesRequestOrNone};

use crate::export::MOST_BYTES;
use crate::request::{Request, decode_request, payload_of, room_of};
use crate::server::session_fault::SessionFault;
use crate::server::transmission::Gone;
use md_streams::{Source, SourceFault, fill_front};
use std::alloc::{AllocError, Global};

// Makes `buf` so long, and takes new memory for it only where it is shorter. The old memory goes before, and with it what stood there.
fn make_room(alloc: Global, buf: &mut Vec<u8>, len: usize) -> Result<(), AllocError>
    ensures { OnOk result (len ≤ length buf.new.items) }
{
    if buf.len() < len {
        *buf = Vec::new(alloc);
        buf.resize(len, 0)?;
    }
    Ok(())
}

// Takes so many bytes into the front of `buf`, fewer only where the source ended.
fn take_payload<I: Source>(
    input: &mut I,
    buf: &mut [u8],
    payload: usize,
) -> Result<usize, SourceFault>
    requires { payload ≤ length buf.old }
    ensures { MatchResult result
        (FillsFrontOf I.Source input.old input.new (take payload buf.new))
        (λ _. I.failed input.new ≡ true) }
{
    fill_front(input, &mut buf[..payload])
}

/// Takes the next request, and what it writes into the front of `buf`, which gets room for what the request reads or writes; or says
/// why there is none.
pub(crate) fn take_request<I: Source>(
    alloc: Global,
    input: &mut I,
    buf: &mut Vec<u8>,
) -> Result<Result<Request, Gone>, SessionFault>
    ensures takes { MatchResult result
        (TakesRequestOrNone I.Source input.old input.new buf.new.items)
        (FailsToTake I.Source input.new) }
    ensures room { IfOk result (λ taken. IfOk taken (λ r. r.length ≤ most_bytes → r.length ≤ length buf.new.items)) }
{
    let mut head = [0; 28];
    let Ok(taken) = fill_front(input, &mut head) else {
        return Err(SessionFault::Source);
    };
    if taken == 0 {
        return Ok(Err(Gone::Ended));
    }
    if taken < 28 {
        return Ok(Err(Gone::Cut));
    }
    let Some(request) = decode_request(&head) else {
        return Ok(Err(Gone::NoRequest));
    };
    let payload = payload_of(&request);
    if payload > MOST_BYTES {
        return Ok(Err(Gone::TooLong));
    }
    let Ok(()) = make_room(alloc, buf, room_of(&request) as usize) else {
        return Err(SessionFault::NoMemory);
    };
    let payload = payload as usize;
    let Ok(filled) = take_payload(input, buf, payload) else {
        return Err(SessionFault::Source);
    };
    if filled < payload {
        return Ok(Err(Gone::Cut));
    }
    Ok(Ok(request))
}
