//! Reads tags of locales, a line each up to an empty one, and prints the known locale that each
//! falls back to: the longest that is the tag itself or the part of it before one of its hyphens.

use anyhow::Result;
use zerotrie::{Trie, TrieStore, ZeroTrieSimpleAscii};

/// The known locales. The empty one is the root, to which every tag falls back in the end.
static LOCALES: [&str; 20] = [
    "",
    "de",
    "de-AT",
    "de-CH",
    "en",
    "en-001",
    "en-GB",
    "fi",
    "fr",
    "fr-CA",
    "ko",
    "pt",
    "pt-PT",
    "sr",
    "sr-Latn",
    "zh",
    "zh-Hans",
    "zh-Hant",
    "zh-Hant-HK",
    "zh-Hant-TW",
];

/// Returns the longest known locale that consists of the first parts of a tag.
fn fall_back<S: TrieStore>(trie: &ZeroTrieSimpleAscii<S>, tag: &str) -> Option<&'static str> {
    let tag = tag.as_bytes();
    let mut found = None;
    for (len, number) in trie.common_prefixes(tag) {
        if len == 0 || len == tag.len() || tag.get(len) == Some(&b'-') {
            found = Some(number);
        }
    }
    LOCALES.get(found?).copied()
}

pub fn main(rt: HostRuntime) -> Result<()> {
    let locales = LOCALES.iter().enumerate();
    let pairs = locales.map(|(number, locale)| (*locale, number));
    let trie = ZeroTrieSimpleAscii::try_from_iter(rt.alloc(), pairs)?;
    for line in rt.lines(rt.alloc()) {
        let tag = line?;
        if tag.is_empty() {
            break;
        }
        match fall_back(&trie, tag.as_str()) {
            Some("") => println!(rt; "{tag}: the root")?,
            Some(locale) => println!(rt; "{tag}: {locale}")?,
            None => println!(rt; "{tag}: none")?,
        }
    }
    Ok(())
}
