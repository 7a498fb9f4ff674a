//! What every on-disk layout of the array shares: little-endian fields, named by their place in a block of
//! bytes, and refusals that come in a stated order.
//!
//! Start with `u32_at` and `put_u32`: the others are the same of another width.
//!
//! ```
//! let mut block = [0; 4096];
//! put_u32(&mut block, 0, 0xa92b_4efc);
//! let magic = u32_at(&block, 0);
//! ```
#![tactic(auto)]

mod fields_at;
mod put_fields;

pub use fields_at::{array_at, u8_at, u16_at, u32_at, u64_at, uuid_at};
pub use put_fields::{put_bytes, put_u8, put_u16, put_u32, put_u64};
