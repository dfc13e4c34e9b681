//! Searches: the pairs of a trie whose keys an automaton accepts.
#![tactic(auto)]

mod any;
mod automaton;
mod beginning;
mod combination;
mod folding;
mod fuzzy;
mod glob;
mod keys_of;
pub mod laws;
mod levenshtein;
mod listing;
mod nearest;
mod pending;
mod prefix;
mod range;
mod search;
mod sorted;
mod subsequence;
mod trail;
mod tries;

pub use any::{AnyAutomaton, SearchBy, WordError};
pub use automaton::{Automaton, accepts};
pub use beginning::BeginsWith;
pub use combination::{Both, Either, Not};
pub use folding::{ByKind, fold_by, fold_word};
pub use fuzzy::Fuzzy;
pub use glob::{Glob, GlobChars, GlobError, GlobState};
pub use keys_of::KeysOf;
pub use levenshtein::{
    CharsState, Levenshtein, LevenshteinChars, LevenshteinState, Osa, OsaChars, OsaCharsState,
    OsaState,
};
pub use listing::TrieListing;
pub use nearest::ZeroTrieNearest;
pub use prefix::{KindPrefix, StartsWith};
pub use range::KeyRange;
pub use search::ZeroTrieSearch;
pub use sorted::{ZeroTrieSorted, ZeroTrieSortedIterator};
pub use subsequence::Subsequence;
pub use tries::Search;

/// The most letters that a word of a fuzzy search has, and the most items of a pattern.
pub const WORD_LIMIT: usize = 63;
