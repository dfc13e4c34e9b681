//! Why a command is not carried out to its end.

ghost use Rattle.std.specs.Prelude.{◌≡◌, IfOk};
ghost use Rattle.zerotrie_run.specs.Commands.{command_refusal};
ghost use Rattle.zerotrie_run.specs.Told.{TellsCommand};

use crate::ask::AskError;
use crate::command::{Build, Combine, Diff, Question, TrieFile};
use crate::diff::DiffError;
use crate::making::MakingError;
use crate::messages::ask::{ask_text, question_text};
use crate::messages::build::unmade_text;
use crate::messages::line::{source_name, target_name};
use crate::messages::pairs::PairUnit;
use crate::status::Status;
use std::alloc::{AllocError, Global};

/// Why a command is not carried out to its end, and what it was to do.
#[derive(Debug, Drop)]
pub enum CommandError<'a> {
    /// No file is made of pairs.
    Build(Build<'a>, MakingError<'a>),
    /// The question has no answer.
    Ask(TrieFile<'a>, Question<'a>, AskError),
    /// The two files are not compared.
    Diff(Diff<'a>, DiffError<'a>),
    /// No file is made of the tries of others.
    Combine(Combine<'a>, MakingError<'a>),
}

impl<'a> CommandError<'a> {
    /// Returns how the run ends if the command is refused. `None` if something failed.
    pub fn refusal(&self) -> Option<Status>
        ensures { result ≡ command_refusal self.now }
    {
        match self {
            CommandError::Build(_, error) | CommandError::Combine(_, error) => error.refusal(),
            CommandError::Ask(_, _, error) => error.refusal(),
            CommandError::Diff(_, error) => error.error.refusal(),
        }
    }

    /// Returns the message that says why.
    pub fn text(&self, alloc: Global) -> Result<Vec<u8>, AllocError>
        ensures { IfOk result (λ text. TellsCommand self.now text.items) }
    {
        match self {
            CommandError::Build(build, error) => unmade_text(
                alloc,
                source_name(build.from),
                PairUnit::of(build.plan.read.source),
                target_name(build.to),
                error,
            ),
            CommandError::Ask(file, question, error) => {
                question_text(alloc, *file, *question, error)
            }
            CommandError::Diff(_, error) => ask_text(alloc, error.file, &error.error),
            // no file has the pairs that are taken, so a line on them is on the file that is made
            CommandError::Combine(combine, error) => {
                let to = target_name(combine.to);
                unmade_text(alloc, to, PairUnit::Pair, to, error)
            }
        }
    }
}
