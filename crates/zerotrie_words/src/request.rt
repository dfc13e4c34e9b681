//! The words of a command line as a command.

ghost use Rattle.std.specs.Prelude.{◌≡◌, IfOk, IfErr, IfSome, map, string_bytes};
ghost use Rattle.zerotrie_run.specs.declared.status.Status.TheVariants.{BadUsage};
ghost use Rattle.zerotrie_words.specs.Reads.{IsFaultSaid, IsFoundIn, IsNoRequest, IsRequest};
ghost use Rattle.zerotrie_words.specs.Replies.{status_of};
ghost use Rattle.zerotrie_words.specs.Requests.{AreApart, AreOneFile, ArePlaces, IsCommand, IsQuiet, IsRefusal, NamesOneFile, file_count, keys_by};
ghost use Rattle.zerotrie_words.specs.Tasks.{AsksForPage};
ghost use Rattle.zerotrie_words.specs.Words.{texts_of};

use crate::arguments::program;
use crate::combine::places_in;
use crate::completions::script_for;
use crate::diff::diff_in;
use crate::keys::words_in;
use crate::manual::manual;
use crate::misuse::Misuse;
use crate::options::{BuildOptions, MakeOptions};
use crate::question::{ask_in, file_count};
use crate::reply::{Reply, reply_to};
use crate::table::commands;
use crate::task::{Task, Topic, task_in};
use clap::ArgMatches;
use std::alloc::{AllocError, Global};
use zerotrie_run::{Build, Command, Place};

/// The words of a command line that name a command.
#[derive(Drop)]
pub struct Request<'a> {
    task: Task,
    matches: ArgMatches<'a>,
    /// The words that are keys or texts.
    keys: Option<Vec<&'a [u8]>>,
    /// The places of the tries that are combined.
    places: Vec<Place<'a>>,
}

/// Returns what clap finds in words, or what is said in place of it.
fn matches_in<'a>(alloc: Global, words: &'a [String]) -> Result<ArgMatches<'a>, Reply<'a>>
    ensures found { IfOk result (IsFoundIn (map (λ word. string_bytes word) words.now)) }
    ensures refused { IfErr result (IsFaultSaid (map (λ word. string_bytes word) words.now)) }
{
    let rows = commands();
    let known = program(alloc, &rows)?;
    match known.try_get_matches_from(words) {
        Ok(matches) => Ok(matches),
        Err(error) => Err(reply_to(alloc, &error, &rows, words)),
    }
}

/// Returns the man page, or the completions for a shell, if the words ask for these. `None` if they
/// ask for something else.
fn page_in(alloc: Global, matches: &ArgMatches<'_>) -> Result<Option<String>, AllocError>
    ensures { IfOk result (λ page. IfSome page (λ _. AsksForPage matches.now)) }
{
    match matches.subcommand() {
        Some(("completions", words)) => {
            let shell = words.get_str("SHELL").unwrap_or("");
            script_for(alloc, shell, &commands())
        }
        Some(("man", _)) => Ok(Some(manual(alloc, &commands())?)),
        _ => Ok(None),
    }
}

/// Returns a build, unless it would replace its own input. Paths that lead to one file by links are
/// not seen here.
fn kept_apart<'a>(build: Build<'a>) -> Result<Build<'a>, Reply<'a>>
    ensures apart { IfOk result (λ same. (same ≡ build.entry) × AreApart same.from same.to) }
    ensures refused { IfErr result (λ reply. AreOneFile build.entry.from build.entry.to
        × (status_of reply ≡ BadUsage)) }
    ensures said { IfErr result (NamesOneFile build.entry.from build.entry.to) }
{
    match (build.from, build.to) {
        (Place::File(from), Place::File(to)) if from == to => Err(Reply::OneFile(from, to)),
        _ => Ok(build),
    }
}

impl<'a> Request<'a> {
    /// Reads the words of a command line, of which the first is the name of the program. It is an
    /// error if they are wrong, if they ask for help, the version, the man page or completions, or
    /// if an allocation fails.
    pub fn read(alloc: Global, words: &'a [String]) -> Result<Self, Reply<'a>>
        ensures keys { IfOk result (λ r. texts_of r.keys ≡ keys_by r.matches r.task) }
        ensures places { IfOk result (λ r. ArePlaces r.matches r.task r.places.items) }
        ensures request { IfOk result (λ r. IsRequest
            (map (λ word. string_bytes word) words.now) r.task r.matches) }
        ensures refused { IfErr result
            (IsNoRequest (map (λ word. string_bytes word) words.now)) }
    {
        let mut matches = matches_in(alloc, words)?;
        if let Some(page) = page_in(alloc, &matches)? {
            return Err(Reply::Help(page));
        }
        let Some((task, matches)) = task_in(&mut matches) else {
            return Err(Reply::Refusal(Misuse::NoCommand));
        };
        let keys = match task {
            Task::Ask(topic) => words_in(alloc, &matches, topic)?,
            Task::Build | Task::Diff | Task::Combine(_) => None,
        };
        let places = places_in(alloc, &matches, task)?;
        Ok(Request {
            task,
            matches,
            keys,
            places,
        })
    }

    /// Returns whether nothing is to be printed of what the command finds, so that its status alone
    /// says it.
    pub fn is_quiet(&self) -> bool
        ensures { IsQuiet self.now.task self.now.matches result }
    {
        match self.task {
            Task::Diff | Task::Ask(Topic::List | Topic::Search) => self.matches.get_flag("quiet"),
            Task::Build
            | Task::Ask(
                Topic::Get
                | Topic::Longest
                | Topic::Reverse
                | Topic::Verify
                | Topic::Stats
                | Topic::Inspect
                | Topic::Code,
            )
            | Task::Combine(_) => false,
        }
    }

    /// Returns how many files the command is for, one after the other.
    pub fn files(&self) -> usize
        ensures { result ≡ file_count self.now.matches self.now.task }
    {
        match self.task {
            Task::Ask(Topic::Verify | Topic::Stats) => file_count(&self.matches),
            Task::Build | Task::Ask(_) | Task::Diff | Task::Combine(_) => 1,
        }
    }

    /// Returns the command that the words ask for, for the file with this number. What is made is
    /// reported always if messages go to a terminal, but not if it is to be quiet. It is an error if an
    /// option has a wrong word, if options exclude each other, or if a build would replace its own
    /// input.
    pub fn command(&self, file: usize, to_terminal: bool) -> Result<Command<'_>, Reply<'a>>
        ensures command { IfOk result
            (IsCommand self.now.matches (texts_of self.now.keys) self.now.places.items to_terminal
            file self.now.task) }
        ensures refused { IfErr result
            (IsRefusal self.now.matches (texts_of self.now.keys) self.now.task) }
        ensures status { IfErr result (λ reply. status_of reply ≡ BadUsage) }
    {
        match self.task {
            Task::Build => {
                let build = BuildOptions::of(&self.matches).build(to_terminal)?;
                Ok(Command::Build(kept_apart(build)?))
            }
            Task::Ask(topic) => Ok(ask_in(&self.matches, topic, file, &self.keys)?),
            Task::Diff => Ok(Command::Diff(diff_in(&self.matches)?)),
            Task::Combine(selection) => {
                let options = MakeOptions::of(&self.matches);
                let values = self.matches.get_str("values");
                let places = self.places.as_slice();
                Ok(Command::Combine(options.combination(values, selection, places, to_terminal)?))
            }
        }
    }
}
