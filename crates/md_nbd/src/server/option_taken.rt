// An option is taken from the source.
ghost use Rattle.std.specs.Prelude.{◌≡◌, ◌≤◌, MatchResult, length, true};
ghost use Rattle.md_nbd.specs.Server.OptionsTaken.{TakesOptionOrNone};

use crate::option_head::{LONGEST_BODY, decode_option_head};
use crate::server::agreement::Haggled;
use md_streams::{Source, SourceFault, fill_front};

/// Takes the next option, its body into the front of `buf`: its number, and how long the body is; or says why there is none.
pub(crate) fn take_option<I: Source>(
    input: &mut I,
    buf: &mut [u8],
) -> Result<Result<(u32, usize), Haggled>, SourceFault>
    requires { 65536 ≤ length buf.old }
    ensures { MatchResult result
        (TakesOptionOrNone I.Source input.old input.new buf.new)
        (λ _. I.failed input.new ≡ true) }
{
    let mut head = [0; 16];
    let taken = fill_front(input, &mut head)?;
    if taken == 0 {
        return Ok(Err(Haggled::Ended));
    }
    if taken < 16 {
        return Ok(Err(Haggled::Cut));
    }
    let Some((option, size)) = decode_option_head(&head) else {
        return Ok(Err(Haggled::NoOption));
    };
    if size > LONGEST_BODY {
        return Ok(Err(Haggled::TooLong));
    }
    let size = size as usize;
    if fill_front(input, &mut buf[..size])? < size {
        return Ok(Err(Haggled::Cut));
    }
    Ok(Ok((option, size)))
}
