//! Copies lines up to an empty one, with HTML's character references replaced by their characters.
//!
//! A reference is an ampersand and the longest name that matches the text after it. Some names have
//! no semicolon, so `&notit;` is `&not` and the text `it;`, but `&notin;` is one reference.

use anyhow::Result;
use zerotrie::{Trie, TrieStore, ZeroTrieSimpleAscii};

/// Names, each with its characters.
static NAMES: [(&str, &str); 28] = [
    ("AMP", "&"),
    ("AMP;", "&"),
    ("Eacute;", "É"),
    ("GT;", ">"),
    ("LT;", "<"),
    ("NotEqualTilde;", "≂̸"),
    ("aacute;", "á"),
    ("amp", "&"),
    ("amp;", "&"),
    ("apos;", "'"),
    ("copy", "©"),
    ("copy;", "©"),
    ("eacute", "é"),
    ("eacute;", "é"),
    ("euro;", "€"),
    ("gg;", "≫"),
    ("gt", ">"),
    ("gt;", ">"),
    ("hearts;", "♥"),
    ("lt", "<"),
    ("lt;", "<"),
    ("not", "¬"),
    ("not;", "¬"),
    ("notin;", "∉"),
    ("nu;", "ν"),
    ("para;", "¶"),
    ("quot", "\""),
    ("quot;", "\""),
];

/// Decodes the reference at the beginning of `text`, which is what follows an ampersand. Returns
/// its characters and the rest; if there is no such name, the ampersand and all of `text`.
fn decode<'a, S: TrieStore>(
    trie: &ZeroTrieSimpleAscii<S>,
    text: &'a str,
) -> (&'static str, &'a str) {
    if let Some((len, number)) = trie.longest_prefix(text.as_bytes()) {
        if let (Some((_, characters)), Some(rest)) = (NAMES.get(number), text.get(len..)) {
            return (*characters, rest);
        }
    }
    ("&", text)
}

pub fn main(rt: HostRuntime) -> Result<()> {
    let names = NAMES.iter().enumerate();
    let pairs = names.map(|(number, (name, _))| (*name, number));
    let trie = ZeroTrieSimpleAscii::try_from_iter(rt.alloc(), pairs)?;
    for line in rt.lines(rt.alloc()) {
        let line = line?;
        if line.is_empty() {
            break;
        }
        let mut parts = line.as_str().split('&');
        print!(rt; "{}", parts.next().unwrap_or(""))?;
        for part in parts {
            let (characters, rest) = decode(&trie, part);
            print!(rt; "{characters}{rest}")?;
        }
        println!(rt; "")?;
    }
    Ok(())
}
