//! What the program uses of the system: images in files, the files that it writes, its words, the line of progress, and the person at
//! the terminal.
//!
//! Start with `FileImages` (`images/files.rt`), the images of a command, and `opened_of` (`outputs/destinations.rt`), the place for
//! its output. A read that can be resumed begins with `resumed_of` in `resuming/place.rt`. That opens the file of the read and its
//! map, or makes them, and says how much was read before. `Progress` (`progress/shown.rt`) draws the line of progress, and `Prompt`
//! asks the `Person`.
//!
//! `images/`: images in files, with the map of each image that lacks sectors.
//! `outputs/`: where a command's output goes, and what the program says about its files.
//! `made/`: files that the program makes itself.
//! `map/`: the map of a read that can be resumed: which read it is for, what it says, and how it is kept.
//! `resuming/`: where a read goes on, and the file that it goes on to write.
//! `progress/`: how far a command is, and the line that shows it on a terminal.
//!
//! ```
//! let progress = Progress::new(rt, task, messages, is_verbose);
//! let masked = masked_images(rt, &request, FileImages::new(rt, &progress, false), &mut err)?;
//! let opened = opened_of(rt, &parsed, resumed, standard, messages, &mut err)?;
//! ```
#![tactic(auto)]

mod arguments;
mod images;
mod made;
mod map;
mod outputs;
mod person;
mod progress;
mod prompt;
mod random;
mod resuming;
mod standard_input;
mod streams;

pub use arguments::given_words;
pub use images::{
    DEVICE_LIST, FileImages, Masked, device_paths, goes_on_over, masked_images, rebuilt_from,
    scan_of_all, tell_unlisted,
};
pub use outputs::{
    Ending, Opened, Outputs, is_output_ended, opened_of, output_of, tell_map_out, tell_output,
    tell_resume_fault,
};
pub use person::Person;
pub use progress::Progress;
pub use prompt::Prompt;
pub use random::bytes_if_needed;
pub use resuming::{Names, ResumeRefusal, identity_of, resumed_of};
pub use standard_input::bytes_left_if_taken;
pub use streams::{StreamFault, are_streams_taken};
