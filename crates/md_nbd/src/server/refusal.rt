// Why a request is refused.
ghost use Rattle.std.specs.Prelude.{◌≡◌};
ghost use Rattle.md_nbd.specs.Server.Refusals.{range_fault, task_fault};

use crate::export::{Export, MOST_BYTES};
use crate::request::{CMD_READ, CMD_WRITE, Request};
use crate::server::store::StoreFault;
use crate::task::{has_known_flags, is_past_end};

/// Why a request is answered with an error.
#[derive(Clone, Copy, Debug, PartialEq, Eq)]
pub enum RequestFault {
    /// It writes, and the export is only read.
    OnlyRead,
    /// It has flags that the server does not know.
    UnknownFlags,
    /// It is none of those that the server does.
    UnknownCommand,
    /// It is longer than what the server keeps room for.
    TooLong,
    /// It goes past the end of the export.
    PastEnd,
    /// It is not of whole sectors, or empty.
    NotWholeSectors,
    /// The store did not do it, or not surely.
    Store(StoreFault),
}

/// A request that is answered with an error, and why.
#[derive(Clone, Copy, Debug, PartialEq, Eq)]
pub struct RefusedRequest {
    pub request: Request,
    pub fault: RequestFault,
}

// Why the range of a request is refused, of those that are.
fn range_fault(export: &Export, request: &Request) -> RequestFault
    ensures { result ≡ range_fault export.now request.now }
{
    if request.length > MOST_BYTES {
        return RequestFault::TooLong;
    }
    if is_past_end(export, request) {
        return RequestFault::PastEnd;
    }
    RequestFault::NotWholeSectors
}

/// Why a request is refused that no store is asked for, in the order in which `task_of` looks for it.
pub(crate) fn task_fault(export: &Export, request: &Request) -> RequestFault
    ensures { result ≡ task_fault export.now request.now }
{
    if request.kind == CMD_WRITE && export.readonly {
        return RequestFault::OnlyRead;
    }
    if !has_known_flags(export, request) {
        return RequestFault::UnknownFlags;
    }
    match request.kind {
        CMD_READ => range_fault(export, request),
        CMD_WRITE => range_fault(export, request),
        _ => RequestFault::UnknownCommand,
    }
}
