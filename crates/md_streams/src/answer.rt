// A line of the input, as an answer.
ghost use Rattle.std.specs.Prelude.{◌≡◌, MatchResult};
ghost use Rattle.md_streams.specs.Source.{FailsToGive};
ghost use Rattle.md_streams.specs.Answer.{Answers, TakesByte};
ghost use Rattle.md_streams.specs.Heard.{answer_of, heard_with};

use crate::source::{Source, SourceFault};

/// What a line answers.
#[derive(Clone, Copy)]
pub(crate) enum Answer {
    /// Yes.
    Yes,
    /// Anything else.
    No,
    /// Nothing: no line feed came.
    Cut,
}

// What was read of a line so far: nothing, the beginning of a yes, a whole one, or something else.
#[derive(Clone, Copy)]
enum Heard {
    Nothing,
    Y,
    Ye,
    Yes,
    Other,
}

/// Reads a line and says what it answers. It reads byte by byte, so that it takes nothing of what comes after the line.
pub(crate) fn read_answer<R: Source>(input: &mut R) -> Answer
    ensures { Answers R.Source input.old input.new result }
{
    let mut heard = Heard::Nothing;
    for taken in 0..u64::MAX {
        match next_byte(input) {
            Ok(Some(byte)) => {
                if byte == b'\n' {
                    return answer_of(heard);
                }
                heard = heard_with(heard, byte);
            }
            Ok(None) => return Answer::Cut,
            Err(_) => return Answer::Cut,
        }
    }
    Answer::Cut
}

// Takes the next byte, if there is one.
fn next_byte<R: Source>(input: &mut R) -> Result<Option<u8>, SourceFault>
    ensures { MatchResult result (TakesByte R.Source input.old input.new)
        (λ _. FailsToGive R.remaining R.failed input.old input.new) }
{
    let mut byte = [0u8; 1];
    if input.take(&mut byte)? == 0 {
        return Ok(None);
    }
    Ok(Some(byte[0]))
}

// What was read of the line, after one more byte.
fn heard_with(heard: Heard, byte: u8) -> Heard
    ensures { result ≡ heard_with heard byte }
{
    match heard {
        Heard::Nothing if byte == b'y' => Heard::Y,
        Heard::Y if byte == b'e' => Heard::Ye,
        Heard::Ye if byte == b's' => Heard::Yes,
        _ => Heard::Other,
    }
}

// What a line answers, if this was read of it.
fn answer_of(heard: Heard) -> Answer
    ensures { result ≡ answer_of heard }
{
    match heard {
        Heard::Y | Heard::Yes => Answer::Yes,
        Heard::Nothing | Heard::Ye | Heard::Other => Answer::No,
    }
}
