// Which requests of a client were refused.
use md_nbd::{RefusedRequest, refused_line};
use md_streams::{Sink, SinkFault};
use std::sync::atomic::{AtomicU64, Ordering};

// So many requests are shown, and then a line says that no more are shown. Each line has at most 120 bytes, so that all of them
// fit into the 64 KiB that a pipe takes if nobody reads it. Beyond that the server would wait for the reader.
const MOST_SHOWN: u64 = 500;

/// The lines of refused requests, where they are shown.
#[derive(Drop)]
pub struct RefusedRequests {
    is_shown: bool,
    count: AtomicU64,
}

impl RefusedRequests {
    pub fn new(is_shown: bool) -> RefusedRequests {
        RefusedRequests {
            is_shown,
            count: AtomicU64::new(0),
        }
    }

    /// Says that a request was refused, and why, unless so many were that no further one is shown.
    pub fn tell<S: Sink>(&self, err: &mut S, refused: &RefusedRequest) -> Result<(), SinkFault> {
        if !self.is_shown || self.count.load(Ordering::SeqCst) > MOST_SHOWN {
            return Ok(());
        }
        if self.count.fetch_add(1, Ordering::SeqCst) < MOST_SHOWN {
            refused_line(err, refused)
        } else {
            err.put(b"mdcli: further refused requests are not shown\n")
        }
    }
}
