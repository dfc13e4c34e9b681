//! The kinds and places that words name.

ghost use Rattle.std.specs.Prelude.{IfErr, IfOk};
ghost use Rattle.zerotrie_words.specs.Options.{text_of};
ghost use Rattle.zerotrie_words.specs.Refusals.{IsNoKind, IsUnknown};
ghost use Rattle.zerotrie_words.specs.Words.{IsKind, IsPlace, IsSource};

use crate::misuse::Misuse;
use zerotrie_core::TrieKind;
use zerotrie_run::Place;

/// Returns the kind that a word names. `None` if it is left out, or the build chooses. It is an error
/// if the word is no kind.
pub fn kind_of(word: Option<&str>) -> Result<Option<TrieKind>, Misuse>
    ensures kind { IfOk result (IsKind (text_of word.entry)) }
    ensures refused { IfErr result (IsUnknown (IsNoKind (text_of word.entry))) }
{
    match word {
        None | Some("auto") => Ok(None),
        Some(word) => Ok(Some(TrieKind::named(word).ok_or(Misuse::UnknownWord)?)),
    }
}

/// Returns the place that a word names.
pub fn place_of(word: Option<&str>) -> Place<'_>
    ensures { IsPlace (text_of word.entry) result }
{
    Place::named(word.unwrap_or("-"))
}

/// Returns the place to read that a word names. A path of standard input is that stream, so that it is
/// not read twice.
pub fn source_of(word: Option<&str>) -> Place<'_>
    ensures { IsSource (text_of word.entry) result }
{
    match word {
        Some("/dev/stdin" | "/dev/fd/0") => Place::Stream,
        _ => place_of(word),
    }
}
