//! Of which arrays images are members, by their superblocks alone.
//!
//! Start with `scan_report`: for each array an entry as `mdadm --examine --scan --verbose` writes it, and comments that
//! mdadm leaves out, on its members and its missing roles.
//!
//! ```
//! let seen = [Seen { name: "a.img", superblock }];
//! scan_report(&mut out, &seen)?;
//! ```

mod array_entry;
mod conf_words;
mod each_image;
mod member_comments;
mod refused;
mod refused_list;
mod report;
mod scan_object;
mod seen;

pub use each_image::{Looked, look_at_each};
pub use refused::{Refused, ScanFault};
pub use report::scan_report;
pub use scan_object::scan_json;
pub use seen::Seen;
