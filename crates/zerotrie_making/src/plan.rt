//! How the file of a trie or an index is made.

ghost use Rattle.std.specs.Prelude.{◌≡◌};
ghost use Rattle.zerotrie_making.specs.Sources.{rows_before};

use crate::duplicates::Duplicates;
use zerotrie_core::TrieKind;
use zerotrie_lines::{Names, TextForm};
use zerotrie_sets::{Rule, Selection};

/// How an input is pairs.
#[derive(Clone, Copy, PartialEq, Eq, Debug)]
pub enum Source<'a> {
    /// Lines or records of this form, one a pair.
    Text(TextForm<'a>),
    /// A JSON value: an object from keys to numbers, or a list of pairs. A pair is a list of two, a
    /// key and a number, and a key is a text or a list of bytes. The pairs are in the order of the
    /// text; a name that comes twice is a key that two pairs have.
    Json,
    /// Lines, each a JSON value: such a pair, or an object whose members with these names are the two.
    /// Other members count for nothing.
    JsonLines(Names<'a>),
}

impl Source<'_> {
    /// Returns how many lines or records are in front of the pairs.
    pub(crate) fn rows_before(self) -> usize
        ensures { result ≡ rows_before self.entry }
    {
        match self {
            Source::Text(form) => form.header.rows(),
            Source::Json | Source::JsonLines(_) => 0,
        }
    }
}

/// What a file has: a trie, with what is beside its bytes, or an index.
#[derive(Clone, Copy, PartialEq, Eq, Debug)]
pub enum FileForm {
    /// A trie with a header in front, which has the kind, the length and a checksum.
    Sealed,
    /// A trie with the number of its kind in front.
    Tagged,
    /// A trie alone.
    Bare,
    /// An index for exact look-ups, which has no kind, with such a header in front.
    Index,
}

/// How the pairs of an input are read.
#[derive(Clone, Copy, PartialEq, Eq, Debug)]
pub struct ReadPlan<'a> {
    /// How the input is pairs.
    pub source: Source<'a>,
    /// Whether the ASCII letters of the keys become lower case.
    pub lower_case: bool,
    /// What is done with pairs that have one key.
    pub duplicates: Duplicates,
}

/// What file is made of pairs.
#[derive(Clone, Copy, PartialEq, Eq, Debug)]
pub struct FilePlan {
    /// The kind of the trie. If `None`, it is `Simple` if all keys are ASCII and there are fewer
    /// than `TrieKind::SIMPLE_LIMIT`, and else `Hash`. An index has none.
    pub kind: Option<TrieKind>,
    /// Whether the keys must ascend strictly by their bytes. Else they may have any order.
    pub sorted: bool,
    /// What the file has.
    pub form: FileForm,
}

/// How a file is made of the pairs of an input.
#[derive(Clone, Copy, PartialEq, Eq, Debug)]
pub struct Plan<'a> {
    /// How the pairs are read.
    pub read: ReadPlan<'a>,
    /// What file is made of them.
    pub file: FilePlan,
}

/// How tries are combined, and what file is made of that.
#[derive(Clone, Copy, PartialEq, Eq, Debug)]
pub struct Combination {
    /// Which keys are taken.
    pub selection: Selection,
    /// Which value a key gets that more than one trie has.
    pub rule: Rule,
    /// The kind of the new trie. If `None`, it is the one that all tries have, or if theirs differ
    /// the one that a build of the pairs takes. An index has none.
    pub kind: Option<TrieKind>,
    /// What the file has.
    pub form: FileForm,
}

/// The file that is made of pairs.
#[derive(PartialEq, Eq, Debug, Drop)]
pub struct Made {
    /// The bytes of the file.
    pub file: Vec<u8>,
    /// The kind of its trie. An index has none; then it is the one that a trie of its keys would
    /// have.
    pub kind: TrieKind,
    /// How many keys it has.
    pub keys: usize,
}
