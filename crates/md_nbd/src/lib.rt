//! The messages of the NBD protocol (network block device, fixed newstyle, simple replies) as a server reads and writes them, and
//! what it answers to each. It has no input, no output and no array.
//!
//! Start with `decode_request` and `task_of`; `answer_option` is the handshake's. Any bytes are answered, or end the session: none
//! are refused by a failure, and no memory is taken by a length that a client names. The protocol is
//! https://github.com/NetworkBlockDevice/nbd/blob/master/doc/proto.md, whose sections the definitions cite by name.
//!
//! `server/`: the server's side of the NBD protocol over any source and any sink of bytes, and over any store of
//! sectors.
//!
//! ```
//! let export = Export { size: 1 << 20, readonly: true };
//! if let Some(request) = decode_request(&bytes) {
//!     if let Task::Read(sector, sectors) = task_of(&export, &request) { .. }
//! }
//! ```
#![tactic(auto)]

mod asked_name;
mod export;
mod haggling;
mod handshake_head;
pub mod laws;
mod number_fields;
mod option_head;
mod option_replies;
mod reply;
mod request;
mod server;
mod task;

pub use export::{Export, MOST_BYTES};
pub use haggling::{Next, answer_option};
pub use handshake_head::{GREETING_BYTES, greeting, no_zeroes_of};
pub use option_head::{LONGEST_BODY, OPTION_HEAD_BYTES, decode_option_head};
pub use reply::{ErrorCode, error_reply, success_reply};
pub use request::{REQUEST_BYTES, Request, decode_request, payload_of, put_request};
pub use server::{
    ClientWatch, Gone, Haggled, RefusedRequest, RequestFault, Service, SessionEnd, SessionFault,
    Store, StoreFault, answer_requests, haggle, put, refused_line, serve_client,
};
pub use task::{Task, task_of};
