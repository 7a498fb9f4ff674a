//! The server's side of the NBD protocol over any source and any sink of bytes, and over any store of sectors: options are
//! haggled over, and then requests are taken and answered, one after another, until the client goes.
//!
//! Start with `serve_client`, and with `Store`, which says by relations what each of its calls does. `haggle` and `answer_requests`
//! are its two parts. None waits but in the source and the sink, and none takes memory by a length that a client names.
//!
//! ```
//! let service = Service { export: &export, watch: &watch };
//! let end = serve_client(alloc, &service, &mut store, &mut mirror, &mut buf, &mut input, &mut out)?;
//! ```

mod agreement;
mod client_watch;
mod option_taken;
mod putting;
mod refusal;
mod refusal_line;
mod request_taken;
mod service;
mod session;
mod session_fault;
mod store;
mod tasks_done;
mod transmission;

pub use agreement::{Haggled, haggle};
pub use client_watch::ClientWatch;
pub use putting::put;
pub use refusal::{RefusedRequest, RequestFault};
pub use refusal_line::refused_line;
pub use service::Service;
pub use session::{SessionEnd, serve_client};
pub use session_fault::SessionFault;
pub use store::{Store, StoreFault};
pub use transmission::{Gone, answer_requests};
