//! What an array's superblock and its members say of device numbers and roles: which are taken, which a device
//! that comes in gets, what the superblock becomes then, and whether a device that left is still of the array.
//!
//! Start with `new_number` and `joined_superblock`. The functions answer questions on the superblock, whose fields
//! are the array's, and on the list of its members, or change its roles. Nothing is kept.
//!
//! ```
//! let number = new_number(&shared, &members);
//! let next = joined_superblock(alloc, &shared, &members, number, SPARE)?;
//! let role = least_free_role(&shared, &members);
//! ```

mod former_member;
mod joining;
mod numbers;
mod roles;

pub use former_member::{has_newcomer, is_of_array, left_its_role};
pub use joining::joined_superblock;
pub use numbers::{drop_absent_roles, drop_role, has_absent_role, new_number};
pub use roles::{is_taken, least_free_role};
