//! Tries over ASCII keys, whose look-ups keep or ignore case.
#![tactic(auto)]

mod array;
mod bytes;
mod cursor;
mod json;
mod list;
mod trie;

pub use cursor::{AsciiCursor, ZeroAsciiIgnoreCaseTrieCursor, ZeroTrieSimpleAsciiCursor};
pub use list::{ZeroTrieStringIterator, ZeroTrieStringKeys};
pub use trie::{AsciiKind, AsciiTrie, ZeroAsciiIgnoreCaseTrie, ZeroTrieSimpleAscii};
