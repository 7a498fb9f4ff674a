//! What reads members side by side: a queue for each source, the worker that reads its next chunks, and the
//! board on which workers note what they read.
//!
//! Start with `turn`, which lets a worker for each queue read. The shares of a `Board` are ledgers, so that
//! what workers note adds up.
//!
//! ```
//! let (board, share) = Board::<L, M>::new(slots, left, failed);
//! let board = Mutex::new(board);
//! turn(rt, gate, &board, chunks, most, &mut queues);
//! ```

mod batch;
mod board;
mod queue;
mod reports;
mod turning;

pub use batch::batch_of;
pub use board::{Board, Share};
pub use queue::Queue;
pub use reports::Reports;
pub use turning::turn;
