//! What is said in place of a command.

ghost use Rattle.std.specs.Prelude.{◌≡◌};
ghost use Rattle.clap.specs.Values.{kind_of};
ghost use Rattle.zerotrie_words.specs.Replies.{IsReply, status_of};
ghost use Rattle.zerotrie_words.specs.declared.reply.Reply.TheVariants as reply;

use crate::arguments::Subcommand;
use crate::help::text_of;
use crate::misuse::Misuse;
use clap::error::ErrorKind;
use std::alloc::{AllocError, Global};
use zerotrie_run::Status;

/// What is said in place of a command.
#[derive(Drop)]
pub enum Reply<'a> {
    /// This help, or the version, which the words ask for.
    Help(String),
    /// This text of several lines: the words are no command.
    Misuse(String),
    /// The words are misused so: an option has a wrong word, or options exclude each other.
    Refusal(Misuse),
    /// These paths are one file, the input of a build and its output.
    OneFile(&'a str, &'a str),
    /// It is out of memory.
    OutOfMemory,
}

impl<'a> From<AllocError> for Reply<'a> {
    ghost from_gives = { λ _ said. said ≡ reply.OutOfMemory };

    fn from(_error: AllocError) -> Self {
        Reply::OutOfMemory
    }
}

impl<'a> From<Misuse> for Reply<'a> {
    ghost from_gives = { λ why said. said ≡ reply.Refusal why };

    fn from(why: Misuse) -> Self {
        Reply::Refusal(why)
    }
}

impl Reply<'_> {
    /// Returns how the program ends once this is said.
    pub fn status(&self) -> Status
        ensures { result ≡ status_of self.now }
    {
        match self {
            Reply::Help(_) => Status::Done,
            Reply::Misuse(_) | Reply::Refusal(_) | Reply::OneFile(_, _) => Status::BadUsage,
            Reply::OutOfMemory => Status::OutOfMemory,
        }
    }
}

/// Returns what is said where clap finds no command: the help or the version that the words ask
/// for, or why they are none.
pub fn reply_to<'a>(
    alloc: Global,
    said: &clap::Error,
    rows: &[&'static [Subcommand]],
    words: &[String],
) -> Reply<'a>
    ensures { IsReply (kind_of said.now) result }
{
    let Ok(text) = text_of(alloc, said, rows, words) else {
        return Reply::OutOfMemory;
    };
    match said.kind() {
        ErrorKind::OutOfMemory => Reply::OutOfMemory,
        ErrorKind::DisplayHelp | ErrorKind::DisplayVersion => Reply::Help(text),
        _ if text.is_empty() => Reply::Refusal(Misuse::NoCommand),
        _ => Reply::Misuse(text),
    }
}
