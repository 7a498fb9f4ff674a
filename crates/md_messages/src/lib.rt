//! What a command tells a person beside its report, and what it asks before it overwrites data that perhaps should stay.
//!
//! Start with `Notices` (`src/notices.rt`): what is noticed of an array as it is opened, and as a command leaves it.
//! `put_told` and `put_refused` (`src/telling.rt`) print its lines after a command. Some lines are only for a refused command
//! (`src/refused_lines.rt`), some only for one that writes (`src/unreadable.rt`), and one only for one that shows the array or
//! stops it (`src/unready.rt`). `ask_first` (`src/question.rt`)
//! asks before the command, and shows some of the lines first. `specs/Telling.antt` says which lines there are, in which order, and
//! `specs/Question.antt` what an answer allows. `Questions` of `md_streams` says what is shown and asked at a terminal.
//! `md_notices` has the rules by which a member gets a line, and the text of each line.
//!
//! `fault_text/`: what standard error says about a fault. `advice/`: what a terminal's second line says about a refused command.
//!
//! ```
//! let mut notices = Notices::none();
//! notices.note_held(alloc, &mut device);
//! ask_first(alloc, &mut asker, command, &notices, &names)?;
//! let told = put_told(&mut err, &notices, command, &names, audience);
//! ```
#![tactic(auto)]

mod absent;
mod advice;
mod fault_text;
mod missing;
mod notices;
mod question;
mod refused_lines;
mod telling;
mod unreadable;
mod unready;

pub use absent::ask_of_absent;
pub use advice::{advice_words, advise};
pub use fault_text::{fault_words, put_fault_line, refusal_words};
pub use missing::put_gap_lines;
pub use notices::Notices;
pub use question::ask_first;
pub use refused_lines::put_perhaps_listed;
pub use telling::{put_refused, put_told};
