//! The keys, texts and values that the command line asks for.

ghost use Rattle.std.specs.Prelude.{◌≡◌, ◌≢◌, ◌∷◌, [], true, false, IfErr, IfOk, codes, map};
ghost use Rattle.zerotrie_words.specs.Questions.{AreKeysMisused};
ghost use Rattle.zerotrie_words.specs.Words.{AreKeysOf, HasNoHyphen, given_words, texts_of};

use crate::misuse::Misuse;
use crate::task::Topic;
use clap::ArgMatches;
use std::alloc::{AllocError, Global};
use zerotrie_run::Keys;

/// Returns words as bytes.
fn bytes_of<'a>(alloc: Global, words: &[&'a str]) -> Result<Vec<&'a [u8]>, AllocError>
    ensures { IfOk result (λ keys.
        map (λ key. key.now) keys.items ≡ map (λ word. word.now) words.now) }
{
    let mut keys = Vec::new(alloc);
    for word in words {
        keys.push(word.as_bytes())?;
    }
    Ok(keys)
}

/// Returns the keys, texts or values that are words of the command line, as bytes. It is `None` if there
/// are none.
pub fn words_in<'a>(
    alloc: Global,
    matches: &ArgMatches<'a>,
    topic: Topic,
) -> Result<Option<Vec<&'a [u8]>>, AllocError>
    ensures { IfOk result (λ words. texts_of words ≡ given_words matches.now topic) }
{
    let given = match topic {
        Topic::Get => matches.get_strs("KEY"),
        Topic::Longest => matches.get_strs("TEXT"),
        Topic::Reverse => matches.get_strs("VALUE"),
        Topic::List | Topic::Search | Topic::Verify | Topic::Stats | Topic::Inspect | Topic::Code =>
            None,
    };
    match given {
        Some(words) => Ok(Some(bytes_of(alloc, words)?)),
        None => Ok(None),
    }
}

/// Returns whether the only word is a hyphen.
fn is_hyphen(words: &[&[u8]]) -> bool
    ensures yes { result ≡ true → map (λ word. word.now) words.now ≡ codes "-" ∷ [] }
    ensures no { result ≡ false → map (λ word. word.now) words.now ≢ codes "-" ∷ [] }
{
    match words.split_first() {
        Some((word, rest)) => rest.is_empty() && *word == b"-".as_slice(),
        None => false,
    }
}

/// Returns whether a word is a hyphen.
fn has_hyphen(words: &[&[u8]]) -> bool
    ensures yes { result ≡ true → HasNoHyphen (map (λ word. word.now) words.now) → ⊥ }
    ensures no { result ≡ false → HasNoHyphen (map (λ word. word.now) words.now) }
{
    for word in words {
        if *word == b"-".as_slice() {
            return true;
        }
    }
    false
}

/// Returns the keys that are asked for: words, or the lines of standard input if the only word is
/// `-`. It is an error if there are no words, or `-` is among others.
pub fn keys_of<'w, 'a: 'w>(words: &'w Option<Vec<&'a [u8]>>) -> Result<Keys<'w>, Misuse>
    ensures keys { IfOk result (AreKeysOf (texts_of words.now)) }
    ensures refused { IfErr result (AreKeysMisused (texts_of words.now)) }
{
    match words {
        Some(words) if is_hyphen(words.as_slice()) => Ok(Keys::Lines),
        Some(words) if has_hyphen(words.as_slice()) => Err(Misuse::HyphenAmongKeys),
        Some(words) => Ok(Keys::Words(words.as_slice())),
        None => Err(Misuse::NoKeys),
    }
}
