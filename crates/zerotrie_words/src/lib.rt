//! The words of the command line: which command they ask for, or what is said in place of one.
#![tactic(auto)]

mod arguments;
mod build;
mod code;
mod combine;
mod completions;
mod diff;
mod help;
mod input;
mod keys;
mod listing;
mod manual;
mod misuse;
mod names;
mod notes;
mod options;
mod question;
mod reply;
mod request;
mod search;
mod shown;
mod table;
mod task;

pub use misuse::Misuse;
pub use reply::Reply;
pub use request::Request;
