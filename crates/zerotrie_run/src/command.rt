//! What the program can be asked to do.

ghost use Rattle.std.specs.Prelude.{◌≡◌, ◌↔◌, true, IsTrue};
ghost use Rattle.zerotrie_run.specs.Messages.{place_name};
ghost use Rattle.zerotrie_run.specs.Commands.{ReadsTwice};
ghost use Rattle.zerotrie_run.specs.Runs.{AreOneStream, HaveTwoStreams, IsNamed, of_lines};
ghost use Rattle.zerotrie_run.specs.declared.command.Place.TheVariants.{Stream};

use zerotrie_core::TrieKind;
use zerotrie_making::{Combination, Plan};
use zerotrie_queries::{Choice, Form, Language, ListQuery, Query, ReportForm, View};

/// Where bytes come from, or go to.
#[derive(Clone, Copy, PartialEq, Eq, Debug)]
pub enum Place<'a> {
    /// The file of this path.
    File(&'a str),
    /// Standard input, or standard output.
    Stream,
}

impl<'a> Place<'a> {
    /// Returns the place that a word names: a file, or a stream if it is `-`.
    pub fn named(word: &'a str) -> Self
        ensures { IsNamed word.now result }
    {
        if word == "-" {
            Place::Stream
        } else {
            Place::File(word)
        }
    }

    /// Returns how messages name the place: by its path, or a stream by the name that is given.
    pub fn name(self, stream: &'static str) -> &'a str
        ensures { result.now ≡ place_name self.entry stream.now }
    {
        match self {
            Place::File(path) => path,
            Place::Stream => stream,
        }
    }
}

/// Returns whether two places are both standard input.
fn are_one_stream(first: Place<'_>, second: Place<'_>) -> bool
    ensures { IsTrue result ↔ AreOneStream first.entry second.entry }
{
    match (first, second) {
        (Place::Stream, Place::Stream) => true,
        _ => false,
    }
}

/// Returns whether two of these places are standard input.
fn have_two_streams(places: &[Place<'_>]) -> bool
    ensures { IsTrue result ↔ HaveTwoStreams places.now }
{
    let mut found = false;
    for place in places {
        match place {
            Place::Stream if found => return true,
            Place::Stream => found = true,
            Place::File(_) => {}
        }
    }
    false
}

/// Keys, texts or values that are asked for.
#[derive(Clone, Copy, Debug)]
pub enum Keys<'a> {
    /// These.
    Words(&'a [&'a [u8]]),
    /// The lines of standard input.
    Lines,
}

/// What a trie is asked.
#[derive(Clone, Copy, Debug)]
pub enum Question<'a> {
    /// These keys, texts or values.
    LookUp(Query, Keys<'a>),
    /// These pairs.
    List(Form, ListQuery<'a>),
    /// The trie as source code, by a name.
    Code(Language, &'a str),
    /// Nothing: whether the file has a trie.
    Verify,
    /// What the trie is made of.
    Report(ReportForm, Option<&'a str>),
    /// Its nodes.
    View(View),
}

/// How the bytes of a file are tested before they are asked.
#[derive(Clone, Copy, PartialEq, Eq, Debug)]
pub enum Check {
    /// A sealed file by its parts alone.
    Skip,
    /// A sealed file by its parts, and others as a trie.
    Usual,
    /// As a trie, and a sealed file by its parts, too.
    Full,
}

/// The file of a trie.
#[derive(Clone, Copy, Debug)]
pub struct TrieFile<'a> {
    pub place: Place<'a>,
    /// The kind of bare bytes. If `None`, the file says which kind it has.
    pub bare: Option<TrieKind>,
    /// How the bytes are tested.
    pub check: Check,
}

/// When a build or a combination reports how many keys its file has, and how long it is. Before that a
/// combination of tries of several kinds reports of which kind its file is, if none was named for it and
/// it is no index, and after that either reports how many files it removed that killed builds of its
/// file left, unless it is to report nothing.
#[derive(Clone, Copy, PartialEq, Eq, Debug)]
pub enum Summary {
    /// Never.
    Never,
    /// If the file has no keys: its input may have been cut off.
    IfEmpty,
    /// Always.
    Always,
}

/// How a file is made, of what, and where.
#[derive(Clone, Copy, Debug)]
pub struct Build<'a> {
    pub from: Place<'a>,
    pub to: Place<'a>,
    pub plan: Plan<'a>,
    /// Whether a file that is there already is left as it is, and the build refused.
    pub no_clobber: bool,
    /// When it is reported at the end what was made.
    pub summary: Summary,
}

/// Two files of tries that are compared. All bytes of each are tested.
#[derive(Clone, Copy, Debug)]
pub struct Diff<'a> {
    pub old: Place<'a>,
    pub new: Place<'a>,
    /// The kind of bare bytes, of both. If `None`, each file says which kind it has.
    pub bare: Option<TrieKind>,
}

/// How a file is made of the tries of files, and where. Each of these says its kind.
#[derive(Clone, Copy, Debug)]
pub struct Combine<'a> {
    /// The files, of which at most one is standard input.
    pub from: &'a [Place<'a>],
    pub to: Place<'a>,
    /// What is made of their tries.
    pub combination: Combination,
    /// Whether a file that is there already is left as it is, and the command refused.
    pub no_clobber: bool,
    /// When it is reported at the end what was made.
    pub summary: Summary,
}

/// What the program is asked to do.
#[derive(Clone, Copy, Debug)]
pub enum Command<'a> {
    /// Make a file of a trie or an index.
    Build(Build<'a>),
    /// Answer a question to the trie of a file.
    Ask(TrieFile<'a>, Question<'a>),
    /// Print what changed from the trie of one file to that of another.
    Diff(Diff<'a>),
    /// Make such a file of the tries of others.
    Combine(Combine<'a>),
}

/// Returns whether the keys of a question are the lines of standard input.
fn reads_lines(question: Question<'_>) -> bool
    ensures { result ≡ of_lines question.entry }
{
    match question {
        Question::LookUp(_, Keys::Lines) => true,
        Question::LookUp(_, Keys::Words(_))
        | Question::List(_, _)
        | Question::Code(_, _)
        | Question::Verify
        | Question::Report(_, _)
        | Question::View(_) => false,
    }
}

/// Returns whether a command would read standard input twice.
pub fn reads_twice(command: Command<'_>) -> bool
    ensures { IsTrue result ↔ ReadsTwice command.entry }
{
    match command {
        Command::Build(_) => false,
        Command::Ask(file, question) => match file.place {
            Place::Stream => reads_lines(question),
            Place::File(_) => false,
        },
        Command::Diff(diff) => are_one_stream(diff.old, diff.new),
        Command::Combine(combine) => have_two_streams(combine.from),
    }
}
