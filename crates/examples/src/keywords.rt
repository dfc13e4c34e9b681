//! Reads words, a line each up to an empty one, and prints what each means as a keyword of C, or
//! `no keyword`.
//!
//! The trie is an array on the stack. Neither its build nor a look-up allocates.

use anyhow::Result;
use zerotrie::{Trie, ZeroTrieSimpleAscii};

/// The array has to be exactly as long as the trie. `encoded_len_str` returns that length, and so
/// does the error of a build into an array that is too large.
type Keywords = ZeroTrieSimpleAscii<[u8; 216]>;

/// The keywords, ascending by their bytes, each with the index of its meaning.
static KEYWORDS: [(&str, usize); 32] = [
    ("auto", 1),
    ("break", 2),
    ("case", 2),
    ("char", 0),
    ("const", 3),
    ("continue", 2),
    ("default", 2),
    ("do", 2),
    ("double", 0),
    ("else", 2),
    ("enum", 4),
    ("extern", 1),
    ("float", 0),
    ("for", 2),
    ("goto", 2),
    ("if", 2),
    ("int", 0),
    ("long", 0),
    ("register", 1),
    ("return", 2),
    ("short", 0),
    ("signed", 0),
    ("sizeof", 5),
    ("static", 1),
    ("struct", 4),
    ("switch", 2),
    ("typedef", 1),
    ("union", 4),
    ("unsigned", 0),
    ("void", 0),
    ("volatile", 3),
    ("while", 2),
];

/// What keywords mean.
static MEANINGS: [&str; 6] = [
    "a type",
    "a storage class",
    "a statement",
    "a qualifier",
    "a declaration of a type",
    "an operator",
];

/// Returns what a word means as a keyword.
fn meaning(keywords: &Keywords, word: &str) -> Option<&'static str> {
    MEANINGS.get(keywords.get_str(word)?).copied()
}

pub fn main(rt: HostRuntime) -> Result<()> {
    let keywords = Keywords::from_sorted_str_tuples(&KEYWORDS)?;
    for line in rt.lines(rt.alloc()) {
        let word = line?;
        if word.is_empty() {
            break;
        }
        let meaning = meaning(&keywords, word.as_str());
        println!(rt; "{word}: {}", meaning.unwrap_or("no keyword"))?;
    }
    Ok(())
}
