//! The program over files: what each command prints, what it writes to files, and its status.
#![tactic(auto)]

mod ask;
mod at_places;
mod combine;
mod command;
mod diff;
mod error;
mod found;
mod front;
pub mod laws;
mod making;
mod messages;
mod open;
mod place;
mod program;
mod several;
mod status;
mod stdin_lines;

pub use command::{Build, Check, Combine, Command, Diff, Keys, Place, Question, Summary, TrieFile};
pub use program::run;
pub use several::run_each;
pub use status::Status;
