// Replies to options.
ghost use Rattle.std.specs.Prelude.{◌≡◌, ◌^◌, ◌<◌, ◌++◌, OnOk, length};
ghost use Rattle.std.specs.Int.{w32, w64, to_be_bytes};
ghost use Rattle.md_nbd.specs.OptionReplies.{REP_INFO as INFO_REPLY, block_size_info, export_info, export_replies, option_reply, option_reply_magic};

use crate::export::{Export, transmission_flags};
use std::alloc::AllocError;

const REPLY_MAGIC: u64 = 0x3e889045565a9;

pub(crate) const REP_ACK: u32 = 1;

pub(crate) const REP_SERVER: u32 = 2;

const REP_INFO: u32 = 3;

pub(crate) const REP_ERR_UNSUP: u32 = 0x80000001;

pub(crate) const REP_ERR_INVALID: u32 = 0x80000003;

pub(crate) const REP_ERR_UNKNOWN: u32 = 0x80000006;

/// Writes a reply to an option.
pub(crate) fn put_option_reply(
    out: &mut Vec<u8>,
    option: u32,
    kind: u32,
    body: &[u8],
) -> Result<(), AllocError>
    requires { length body.now < 2 ^ 32 }
    ensures { OnOk result (out.new.items ≡ out.old.items ++ option_reply option kind body.now) }
{
    put_reply_head(out, option, kind)?;
    put_sized(out, body)?;
    Ok(())
}

fn put_reply_head(out: &mut Vec<u8>, option: u32, kind: u32) -> Result<(), AllocError>
    ensures { OnOk result (out.new.items
        ≡ out.old.items ++ to_be_bytes w64 option_reply_magic ++ to_be_bytes w32 option ++ to_be_bytes w32 kind) }
{
    out.extend_from_slice(&REPLY_MAGIC.to_be_bytes())?;
    out.extend_from_slice(&option.to_be_bytes())?;
    out.extend_from_slice(&kind.to_be_bytes())?;
    Ok(())
}

// Writes a body after its length.
fn put_sized(out: &mut Vec<u8>, body: &[u8]) -> Result<(), AllocError>
    requires { length body.now < 2 ^ 32 }
    ensures { OnOk result (out.new.items ≡ out.old.items ++ to_be_bytes w32 (length body.now) ++ body.now) }
{
    out.extend_from_slice(&(body.len() as u32).to_be_bytes())?;
    out.extend_from_slice(body)
}

/// Writes what an option is answered that asks for the export.
pub(crate) fn put_export_replies(
    out: &mut Vec<u8>,
    export: &Export,
    option: u32,
) -> Result<(), AllocError>
    ensures { OnOk result (out.new.items ≡ out.old.items ++ export_replies export.now option) }
{
    put_export_info_reply(out, export, option)?;
    put_block_size_reply(out, option)?;
    put_option_reply(out, option, REP_ACK, &[])
}

fn put_export_info_reply(out: &mut Vec<u8>, export: &Export, option: u32) -> Result<(), AllocError>
    ensures { OnOk result (out.new.items ≡ out.old.items ++ option_reply option INFO_REPLY (export_info export.now)) }
{
    put_reply_head(out, option, REP_INFO)?;
    put_number(out, 12)?;
    put_export_info(out, export)
}

fn put_export_info(out: &mut Vec<u8>, export: &Export) -> Result<(), AllocError>
    ensures { OnOk result (out.new.items ≡ out.old.items ++ export_info export.now) }
{
    out.extend_from_slice(&[0, 0])?;
    out.extend_from_slice(&export.size.to_be_bytes())?;
    out.extend_from_slice(&transmission_flags(export).to_be_bytes())?;
    Ok(())
}

fn put_number(out: &mut Vec<u8>, number: u32) -> Result<(), AllocError>
    ensures { OnOk result (out.new.items ≡ out.old.items ++ to_be_bytes w32 number) }
{
    out.extend_from_slice(&number.to_be_bytes())
}

// NBD_INFO_BLOCK_SIZE: 512, 4096 and 32 MiB.
const BLOCK_SIZES: [u8; 14] = [0, 3, 0, 0, 2, 0, 0, 0, 16, 0, 2, 0, 0, 0];

fn put_block_size_reply(out: &mut Vec<u8>, option: u32) -> Result<(), AllocError>
    ensures { OnOk result (out.new.items ≡ out.old.items ++ option_reply option INFO_REPLY block_size_info) }
{
    put_option_reply(out, option, REP_INFO, &BLOCK_SIZES)
}
