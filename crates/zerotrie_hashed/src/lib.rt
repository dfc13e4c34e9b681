//! Tries over keys of any bytes, whose wide branches have perfect hashes.
#![tactic(auto)]

mod bytes;
mod cursor;
mod json;
mod list;
mod trie;

pub use cursor::{HashedCursor, ZeroTrieExtendedCapacityCursor, ZeroTriePerfectHashCursor};
pub use trie::{HashedKind, HashedTrie, ZeroTrieExtendedCapacity, ZeroTriePerfectHash};
