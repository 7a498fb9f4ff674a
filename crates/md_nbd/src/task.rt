// What a request asks for.
ghost use Rattle.std.specs.Prelude.{◌≡◌};
ghost use Rattle.md_nbd.specs.NbdTasks.{FitsExport, has_known_flags, has_whole_sectors, is_past_end, read_task_of, task_of, write_task_of};

use crate::export::{Export, MOST_BYTES};
use crate::reply::ErrorCode;
use crate::request::{CMD_DISC, CMD_FLUSH, CMD_READ, CMD_WRITE, FLAG_FUA, Request};

/// What a request asks the server to do. Sectors have 512 bytes.
#[derive(Clone, Copy, Debug, PartialEq, Eq)]
pub enum Task {
    /// To read so many sectors, the second number, from the first on.
    Read(u64, u32),
    /// To write so many sectors, the second number, from the first on; and whether they have to stand before the answer.
    Write(u64, u32, bool),
    Flush,
    /// To go.
    Disconnect,
    /// Nothing: it is answered with this error.
    Refuse(ErrorCode),
}

pub(crate) fn has_whole_sectors(request: &Request) -> bool
    ensures { result ≡ has_whole_sectors request.now }
{
    request.offset % 512 == 0 && request.length % 512 == 0 && 0 < request.length
}

pub(crate) fn is_past_end(export: &Export, request: &Request) -> bool
    ensures { result ≡ is_past_end export.now request.now }
{
    // Read first: its range is known once it is.
    let size = export.size;
    match request.offset.checked_add(u64::from(request.length)) {
        Some(end) => size < end,
        None => true,
    }
}

pub(crate) fn has_known_flags(export: &Export, request: &Request) -> bool
    ensures { result ≡ has_known_flags export.now request.now }
{
    let limit = if export.readonly { 1 } else { 2 };
    request.flags < limit
}

fn read_task(export: &Export, request: &Request) -> Task
    ensures { result ≡ read_task_of export.now request.now }
{
    if request.length > MOST_BYTES {
        return Task::Refuse(ErrorCode::TooLarge);
    }
    if is_past_end(export, request) || !has_whole_sectors(request) {
        return Task::Refuse(ErrorCode::Invalid);
    }
    Task::Read(request.offset / 512, request.length / 512)
}

fn write_task(export: &Export, request: &Request) -> Task
    ensures { result ≡ write_task_of export.now request.now }
{
    if request.length > MOST_BYTES {
        return Task::Refuse(ErrorCode::TooLarge);
    }
    if is_past_end(export, request) {
        return Task::Refuse(ErrorCode::NoSpace);
    }
    if !has_whole_sectors(request) {
        return Task::Refuse(ErrorCode::Invalid);
    }
    let through = request.flags == FLAG_FUA;
    Task::Write(request.offset / 512, request.length / 512, through)
}

/// What a request asks for, or why it is refused. What is read or written lies in the array, and is no more than the server keeps
/// room for.
pub fn task_of(export: &Export, request: &Request) -> Task
    ensures task { result ≡ task_of export.now request.now }
    ensures fits { FitsExport export.now request.now result }
{
    if request.kind == CMD_DISC {
        return Task::Disconnect;
    }
    if request.kind == CMD_WRITE && export.readonly {
        return Task::Refuse(ErrorCode::NotPermitted);
    }
    if !has_known_flags(export, request) {
        return Task::Refuse(ErrorCode::Invalid);
    }
    match request.kind {
        CMD_READ => read_task(export, request),
        CMD_WRITE => write_task(export, request),
        CMD_FLUSH => Task::Flush,
        _ => Task::Refuse(ErrorCode::Invalid),
    }
}
