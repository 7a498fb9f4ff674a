// What the server answers to an option.
ghost use Rattle.std.specs.Prelude.{◌≡◌, ◌++◌, IfOk, OnOk, option_map};
ghost use Rattle.md_nbd.specs.Haggling.{answer_to_export_name, answer_to_list, answer_to_name, next_after, option_answer};

use crate::asked_name::asked_name_of;
use crate::export::{Export, transmission_flags};
use crate::option_replies::{
    REP_ACK, REP_ERR_INVALID, REP_ERR_UNKNOWN, REP_ERR_UNSUP, REP_SERVER, put_export_replies,
    put_option_reply,
};
use std::alloc::AllocError;

const EXPORT_NAME: u32 = 1;

const ABORT: u32 = 2;

const LIST: u32 = 3;

const INFO: u32 = 6;

const GO: u32 = 7;

/// What comes after an option.
#[derive(Clone, Copy, Debug, PartialEq, Eq)]
pub enum Next {
    /// Another option.
    Haggling,
    /// Requests: the client has the export.
    Transmission,
    /// Nothing: the server goes.
    Closed,
}

// Answers INFO or GO.
fn put_answer_to_name(
    out: &mut Vec<u8>,
    export: &Export,
    option: u32,
    name: Option<&[u8]>,
) -> Result<(), AllocError>
    ensures { OnOk result (out.new.items
        ≡ out.old.items ++ answer_to_name export.now option (option_map (λ name. name.now) name.entry)) }
{
    match name {
        None => put_option_reply(out, option, REP_ERR_INVALID, &[]),
        Some([]) => put_export_replies(out, export, option),
        Some(_) => put_option_reply(out, option, REP_ERR_UNKNOWN, &[]),
    }
}

// Answers LIST.
fn put_answer_to_list(out: &mut Vec<u8>, body: &[u8]) -> Result<(), AllocError>
    ensures { OnOk result (out.new.items ≡ out.old.items ++ answer_to_list body.now) }
{
    if !body.is_empty() {
        return put_option_reply(out, LIST, REP_ERR_INVALID, &[]);
    }
    put_option_reply(out, LIST, REP_SERVER, &[0, 0, 0, 0])?;
    put_option_reply(out, LIST, REP_ACK, &[])
}

// Answers EXPORT_NAME.
fn put_answer_to_export_name(
    out: &mut Vec<u8>,
    export: &Export,
    no_zeroes: bool,
    body: &[u8],
) -> Result<(), AllocError>
    ensures { OnOk result (out.new.items ≡ out.old.items ++ answer_to_export_name export.now no_zeroes body.now) }
{
    if !body.is_empty() {
        return Ok(());
    }
    out.extend_from_slice(&export.size.to_be_bytes())?;
    out.extend_from_slice(&transmission_flags(export).to_be_bytes())?;
    if !no_zeroes {
        out.extend_from_slice(&[0; 124])?;
    }
    Ok(())
}

/// Writes the answer to an option, and says what comes next. `no_zeroes` is the client's wish that EXPORT_NAME be answered
/// without 124 zeros. An option or a body that the server doesn't know is answered so.
pub fn answer_option(
    out: &mut Vec<u8>,
    export: &Export,
    no_zeroes: bool,
    option: u32,
    body: &[u8],
) -> Result<Next, AllocError>
    ensures answer { OnOk result (out.new.items ≡ out.old.items ++ option_answer export.now no_zeroes option body.now) }
    ensures next { IfOk result (λ next. next ≡ next_after option body.now) }
{
    match option {
        EXPORT_NAME => {
            put_answer_to_export_name(out, export, no_zeroes, body)?;
            Ok(if body.is_empty() {
                Next::Transmission
            } else {
                Next::Closed
            })
        }
        ABORT => {
            put_option_reply(out, ABORT, REP_ACK, &[])?;
            Ok(Next::Closed)
        }
        LIST => {
            put_answer_to_list(out, body)?;
            Ok(Next::Haggling)
        }
        INFO => {
            put_answer_to_name(out, export, INFO, asked_name_of(body))?;
            Ok(Next::Haggling)
        }
        GO => {
            let name = asked_name_of(body);
            put_answer_to_name(out, export, GO, name)?;
            Ok(if matches!(name, Some([])) {
                Next::Transmission
            } else {
                Next::Haggling
            })
        }
        _ => {
            put_option_reply(out, option, REP_ERR_UNSUP, &[])?;
            Ok(Next::Haggling)
        }
    }
}
