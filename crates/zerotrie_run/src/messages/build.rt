//! Messages on a file that is made.

ghost use Rattle.std.specs.Prelude.{◌≡◌, ◌&&◌, ◌++◌, [], false, IfOk};
ghost use Rattle.std.specs.String.{string_bytes};
ghost use Rattle.zerotrie_run.specs.Commands.{may_tell};
ghost use Rattle.zerotrie_run.specs.Messages.{TellsMade, TellsMakingError, file_word, key_word, line_on, size_text, tenths_text, told_key, value_words};
ghost use Rattle.zerotrie_run.specs.Told.{TellsThenLeft, form_of, has_kind, is_told, made_lines, told_kind, told_made, told_removed};

use crate::command::{Place, Summary};
use crate::making::{Making, MakingError, Recipe, file_of};
use crate::messages::ask::no_trie;
use crate::messages::key::with_key;
use crate::messages::line::{fault_on, line_on, source_name, target_name, tell, unwritten};
use crate::messages::pairs::{PairUnit, made_words};
use std::alloc::{AllocError, Global};
use std::io::Write;
use zerotrie_core::TrieKind;
use zerotrie_files::Noted;
use zerotrie_making::{CombinationError, FileForm, Made, MakeError};
use zerotrie_sets::RuleError;

/// Returns a line that says why no file is made.
fn unmade(
    alloc: Global,
    place: &str,
    unit: PairUnit,
    error: &MakeError,
) -> Result<Vec<u8>, AllocError>
    ensures { IfOk result (λ text. TellsMade place.now unit error.now text.items) }
{
    let words = made_words(alloc, unit, error)?;
    line_on(alloc, place, words.as_slice())
}

/// Returns tenths of a unit.
fn tenths_text(alloc: Global, tenths: usize, unit: &str) -> Result<String, AllocError>
    ensures { IfOk result (λ text. string_bytes text ≡ tenths_text tenths unit.now) }
{
    let whole = tenths / 10;
    let rest = tenths % 10;
    format!(in alloc; "{whole}.{rest}{unit}")
}

/// Returns a size: bytes, or kB, MB or GB with one digit behind the point, which is not rounded up.
fn size_text(alloc: Global, len: usize) -> Result<String, AllocError>
    ensures { IfOk result (λ text. string_bytes text ≡ size_text len) }
{
    if len < 1000 {
        format!(in alloc; "{len} bytes")
    } else if len < 1_000_000 {
        tenths_text(alloc, len / 100, " kB")
    } else if len < 1_000_000_000 {
        tenths_text(alloc, len / 100_000, " MB")
    } else {
        tenths_text(alloc, len / 100_000_000, " GB")
    }
}

/// Returns the word after a number of keys.
fn key_word(keys: usize) -> &'static str
    ensures { result.now ≡ key_word keys }
{
    if keys == 1 { "key" } else { "keys" }
}

/// Returns whether it is reported that a file with this many keys was made.
fn is_told(summary: Summary, keys: usize) -> bool
    ensures { result ≡ is_told summary keys }
{
    match summary {
        Summary::Never => false,
        Summary::IfEmpty => keys == 0,
        Summary::Always => true,
    }
}

/// Returns a line that says how many keys a file has that was made, and how long it is. It is empty
/// if that is not told.
fn made_text(
    alloc: Global,
    is_told: bool,
    place: &str,
    keys: usize,
    len: usize,
) -> Result<Vec<u8>, AllocError>
    ensures { IfOk result (λ text. text.items ≡ told_made is_told place.now keys len) }
{
    if !is_told {
        return Ok(Vec::new(alloc));
    }
    let (word, size) = (key_word(keys), size_text(alloc, len)?);
    let words = format!(in alloc; "{keys} {word}, {size}")?;
    line_on(alloc, place, words.as_bytes())
}

/// Returns what file a recipe makes.
fn form_of(recipe: Recipe<'_>) -> FileForm
    ensures { result ≡ form_of recipe.entry }
{
    match recipe {
        Recipe::Pairs(plan) => plan.file.form,
        Recipe::Tries(combination) => combination.form,
    }
}

/// Returns whether it is told of which kind a file is, if no kind is named for it and the tries of the
/// files have several.
fn tells_kind(making: Making<'_, '_>) -> bool
    ensures { result ≡ (may_tell making.entry.summary && has_kind (form_of making.entry.recipe)) }
{
    making.summary != Summary::Never && form_of(making.recipe) != FileForm::Index
}

/// Returns a line that says of which kind a file is, and why. It is empty if that is not told.
fn kind_text(
    alloc: Global,
    tells_kind: bool,
    place: &str,
    kind: TrieKind,
) -> Result<Vec<u8>, AllocError>
    ensures { IfOk result (λ text. text.items ≡ told_kind tells_kind place.now kind) }
{
    if !tells_kind {
        return Ok(Vec::new(alloc));
    }
    let name = kind.name();
    let words = format!(in alloc;
        "the files have tries of several kinds, so it is of kind {name}"
    )?;
    line_on(alloc, place, words.as_bytes())
}

/// Returns what is told of a file that was made, as the summary says. `several` is whether no kind is named
/// for it and the tries of its files have several.
pub fn made_lines(
    alloc: Global,
    making: Making<'_, '_>,
    several: bool,
    made: &Made,
) -> Result<Vec<u8>, AllocError>
    ensures { IfOk result (λ text. text.items ≡ made_lines making.entry several made.now) }
{
    let place = target_name(making.to);
    let mut text = kind_text(alloc, several && tells_kind(making), place, made.kind)?;
    let is_told = is_told(making.summary, made.keys);
    let line = made_text(alloc, is_told, place, made.keys, made.file.len())?;
    text.extend_from_slice(line.as_slice())?;
    Ok(text)
}

/// Returns the word after a number of files.
fn file_word(count: usize) -> &'static str
    ensures { result.now ≡ file_word count }
{
    if count == 1 { "file" } else { "files" }
}

/// Returns a line that says how many files were removed that killed builds left. It is empty if that
/// is not told.
fn removed_text(
    alloc: Global,
    may_say: bool,
    place: &str,
    removed: usize,
) -> Result<Vec<u8>, AllocError>
    ensures { IfOk result (λ text. text.items ≡ told_removed may_say place.now removed) }
{
    if !may_say {
        return Ok(Vec::new(alloc));
    }
    let word = file_word(removed);
    let words = format!(in alloc; "removed {removed} {word} that killed builds left")?;
    line_on(alloc, place, words.as_bytes())
}

/// Says how many files were removed that killed builds left beside that of a place, if there was one
/// and the summary is not to say nothing. Without memory for it, says nothing.
pub fn tell_removed<M: Write>(
    alloc: Global,
    messages: &mut Noted<M>,
    summary: Summary,
    to: Place<'_>,
    removed: usize,
)
    ensures told { messages.new.failed ≡ false → (messages.old.failed ≡ false)
        × TellsThenLeft [] summary to.entry (M.contents messages.old.inner)
        (M.contents messages.new.inner) }
    ensures quiet { may_tell summary ≡ false → messages.new ≡ messages.old }
{
    let is_told = removed > 0 && summary != Summary::Never;
    if let Ok(text) = removed_text(alloc, is_told, target_name(to), removed) {
        tell(messages, text.as_slice());
    }
}

/// Returns why a key that is taken gets no value.
fn value_words(why: RuleError) -> &'static str
    ensures { result.now ≡ value_words why }
{
    match why {
        RuleError::SeveralValues => {
            "more than one file has this key; --values first, sum or another gives it one value: "
        }
        RuleError::DifferentValues => "files have different values for this key: ",
        RuleError::SumTooLarge => "the sum of the values of this key is 2^64 or more: ",
    }
}

/// Returns a line that says that a key gets no value, and why.
fn no_value(alloc: Global, place: &str, why: RuleError, key: &[u8]) -> Result<Vec<u8>, AllocError>
    ensures { IfOk result (λ text. text.items
        ≡ line_on place.now (value_words why ++ told_key key.now)) }
{
    let words = with_key(alloc, value_words(why), key)?;
    line_on(alloc, place, words.as_slice())
}

/// Returns a line that says why no file is made. The places are named whose pairs make none, and where the
/// file goes.
pub fn unmade_text(
    alloc: Global,
    pairs: &str,
    unit: PairUnit,
    to: &str,
    error: &MakingError<'_>,
) -> Result<Vec<u8>, AllocError>
    ensures { IfOk result (λ text. TellsMakingError pairs.now unit to.now error.now text.items) }
{
    match error {
        MakingError::Taken => line_on(
            alloc,
            to,
            b"the file is there already, and --no-clobber leaves it",
        ),
        MakingError::Unread(place, error) => fault_on(alloc, source_name(*place), error),
        MakingError::NoTrie(place, why, hint) => no_trie(alloc, file_of(*place), why, *hint),
        MakingError::NotMade(CombinationError::NoValue(why, key)) => {
            no_value(alloc, to, *why, key.as_slice())
        }
        MakingError::NotMade(CombinationError::NotMade(error)) => unmade(alloc, pairs, unit, error),
        MakingError::Unfound(error) => fault_on(alloc, to, error),
        MakingError::Unwritten(error) => unwritten(alloc, to, error),
    }
}
