//! What messages say of pairs that make no file.

ghost use Rattle.std.specs.Prelude.{◌≡◌, IfOk};
ghost use Rattle.zerotrie_run.specs.Messages.{AreMadeWords, above_words, ascii_words, bad_hint, bad_line_words, bad_words, case_hint, case_words, field_words, index_refused_words, json_hint, json_words, keys_words, no_pair_words, other_words, quoted_words, refused_words, same_words, sum_words, unit_of, unit_word, value_fault_words};

use crate::messages::key::{with_key, with_keys};
use std::alloc::{AllocError, Global};
use zerotrie_core::ZeroTrieBuildError;
use zerotrie_index::ZeroIndexBuildError;
use zerotrie_lines::{BadLine, Format, ValueFault, write_escaped};
use zerotrie_making::{MakeError, NoPair, NumberedKey, OtherFile, Shown, Source};

/// What holds one pair.
#[derive(Clone, Copy, PartialEq, Eq, Debug)]
pub enum PairUnit {
    /// A line.
    Line,
    /// A record of comma-separated fields.
    Record,
    /// A member or an item of a JSON value, or a pair that is in no input.
    Pair,
}

impl PairUnit {
    /// Returns what holds one pair of a source.
    pub fn of(source: Source<'_>) -> Self
        ensures { result ≡ unit_of source.entry }
    {
        match source {
            Source::Text(form) => match form.format {
                Format::Csv => PairUnit::Record,
                Format::Tsv | Format::TsvRaw | Format::Lines => PairUnit::Line,
            },
            Source::Json => PairUnit::Pair,
            Source::JsonLines(_) => PairUnit::Line,
        }
    }

    /// Returns the word before its number in messages.
    fn word(self) -> &'static str
        ensures { result.now ≡ unit_word self }
    {
        match self {
            PairUnit::Line => "line",
            PairUnit::Record => "record",
            PairUnit::Pair => "pair",
        }
    }
}

/// Returns what is said of an input that is another file, and what to do.
pub fn other_words(other: OtherFile) -> &'static str
    ensures { result.now ≡ other_words other }
{
    match other {
        OtherFile::Utf16 => "it looks like UTF-16: make it UTF-8 by iconv -f UTF-16 -t UTF-8",
        OtherFile::Gzip => "it looks like a file of gzip: gunzip it first",
        OtherFile::Sealed => {
            "it is a trie or an index that zerotrie made: list prints the pairs of a trie"
        }
    }
}

/// Returns what may help if this line or record is no pair.
fn bad_hint(unit: PairUnit, number: usize, bad: &BadLine) -> &'static str
    ensures { result.now ≡ bad_hint unit number bad.now }
{
    match bad {
        BadLine::NoTab => "; if the input has another form, name it by --format",
        BadLine::Value(value)
            if number == 1 && unit != PairUnit::Pair && value.fault == ValueFault::Other => {
            "; if it is a header, say so by --header"
        }
        BadLine::Empty
        | BadLine::Escape
        | BadLine::Value(_)
        | BadLine::Fields(_, _)
        | BadLine::NoColumn(_)
        | BadLine::SameColumns(_) => "",
    }
}

/// Returns a field or a name in quotes.
fn quoted_words(alloc: Global, field: &[u8]) -> Result<Vec<u8>, AllocError>
    ensures { IfOk result (λ words. words.items ≡ quoted_words field.now) }
{
    let mut words = Vec::from_slice(alloc, b": \"")?;
    write_escaped(&mut words, field)?;
    words.push(b'"')?;
    Ok(words)
}

/// Returns what a field begins with that is no value, the name of a column, or how many fields there
/// are.
fn field_words(alloc: Global, bad: &BadLine) -> Result<Vec<u8>, AllocError>
    ensures { IfOk result (λ words. words.items ≡ field_words bad.now) }
{
    match bad {
        BadLine::Value(value) => quoted_words(alloc, value.front.as_slice()),
        BadLine::NoColumn(name) | BadLine::SameColumns(name) => {
            quoted_words(alloc, name.as_slice())
        }
        BadLine::Fields(found, wanted) => {
            let words = format!(in alloc; ": {found}, not {wanted}")?;
            Vec::from_slice(alloc, words.as_bytes())
        }
        BadLine::Empty | BadLine::NoTab | BadLine::Escape => Ok(Vec::new(alloc)),
    }
}

/// Returns what is wrong with a field that is no value.
fn value_fault_words(fault: ValueFault) -> &'static str
    ensures { result.now ≡ value_fault_words fault }
{
    match fault {
        ValueFault::Empty => "the value is missing",
        ValueFault::Sign => "the value has a sign",
        ValueFault::Blank => "a blank is in the value",
        ValueFault::CarriageReturn => "a carriage return is at the end of the value",
        ValueFault::Hexadecimal => "the value is hexadecimal, not decimal",
        ValueFault::Fraction => "the value is a fraction or has an exponent",
        ValueFault::TooLong => "the value has more than 20 digits",
        ValueFault::TooGreat => "the value is 2^64 or more",
        ValueFault::Other => "the value is no decimal number",
    }
}

/// Returns why a line or record is no pair.
fn bad_line_words(bad: &BadLine) -> &'static str
    ensures { result.now ≡ bad_line_words bad.now }
{
    match bad {
        BadLine::Empty => "an empty line",
        BadLine::NoTab => "no tab between a key and its value",
        BadLine::Escape => {
            "a backslash that begins no escape; the escapes are \\t \\n \\r \\\\ \\xHH"
        }
        BadLine::Value(value) => value_fault_words(value.fault),
        BadLine::Fields(_, _) => "wrong number of fields",
        BadLine::NoColumn(_) => "no column has this name",
        BadLine::SameColumns(_) => "more than one column has this name",
    }
}

/// Returns which line is no pair, and why.
fn bad_words(
    alloc: Global,
    unit: PairUnit,
    number: usize,
    bad: &BadLine,
) -> Result<Vec<u8>, AllocError>
    ensures { IfOk result (λ words. words.items ≡ bad_words unit number bad.now) }
{
    let (word, why) = (unit.word(), bad_line_words(bad));
    let field = field_words(alloc, bad)?;
    let text = format!(in alloc; "{word} {number}: {why}")?;
    let mut words = Vec::from_slice(alloc, text.as_bytes())?;
    words.extend_from_slice(field.as_slice())?;
    words.extend_from_slice(bad_hint(unit, number, bad).as_bytes())?;
    Ok(words)
}

/// Returns what may help if a text is no JSON value from here on.
fn json_hint(line: usize, column: usize) -> &'static str
    ensures { result.now ≡ json_hint line column }
{
    if line > 1 && column == 1 {
        "; if each line is a value, name the format by --format jsonl"
    } else {
        ""
    }
}

/// Returns where a text is no JSON value.
fn json_words(alloc: Global, line: usize, column: usize) -> Result<Vec<u8>, AllocError>
    ensures { IfOk result (λ words. words.items ≡ json_words line column) }
{
    let hint = json_hint(line, column);
    let words = format!(in alloc; "line {line}, column {column}: no JSON value{hint}")?;
    Vec::from_slice(alloc, words.as_bytes())
}

/// Returns which member or item of a JSON value, or which line, is no pair.
fn no_pair_words(alloc: Global, bad: &NoPair) -> Result<Vec<u8>, AllocError>
    ensures { IfOk result (λ words. words.items ≡ no_pair_words bad.now) }
{
    match bad {
        NoPair::Member(key) => with_key(
            alloc,
            "the value of this key is not written as a whole number below 2^64: ",
            key.as_slice(),
        ),
        NoPair::Item(number) => {
            let words = format!(in alloc;
                "pair {number}: no list of a key and of a value that is written as a whole number below 2^64"
            )?;
            Vec::from_slice(alloc, words.as_bytes())
        }
        NoPair::Line(number) => {
            let words = format!(in alloc;
                "line {number}: no JSON list [key, value], and no object {{\"key\": key, \"value\": value}} or with the names of --key and --value, whose value is written as a whole number below 2^64"
            )?;
            Vec::from_slice(alloc, words.as_bytes())
        }
    }
}

/// Returns what two keys have in common that a kind refuses, and what to do.
fn case_hint(first: &[u8], second: &[u8]) -> &'static str
    ensures { result.now ≡ case_hint first.now second.now }
{
    if first.eq_ignore_ascii_case(second) {
        "their keys differ only in case, so they are one key to the kind; leave one out"
    } else {
        "their keys begin alike but for the case of a letter; take --kind simple, or bring keys into lower case by build --lower-case"
    }
}

/// Returns that two keys are refused for their case.
fn case_words(
    alloc: Global,
    unit: &str,
    first: &NumberedKey,
    second: &NumberedKey,
) -> Result<Vec<u8>, AllocError>
    ensures { IfOk result (λ words. words.items ≡ case_words unit.now first.now second.now) }
{
    let (m, n) = (first.number, second.number);
    let hint = case_hint(first.key.as_slice(), second.key.as_slice());
    let words = format!(in alloc; "{unit}s {m} and {n}: {hint}: ")?;
    with_keys(
        alloc,
        words.as_str(),
        first.key.as_slice(),
        second.key.as_slice(),
    )
}

/// Returns that two pairs have the same key.
fn same_words(
    alloc: Global,
    unit: &str,
    first: &NumberedKey,
    second: &NumberedKey,
) -> Result<Vec<u8>, AllocError>
    ensures { IfOk result (λ words. words.items ≡ same_words unit.now first.now second.now) }
{
    let (m, n) = (first.number, second.number);
    let words = format!(in alloc;
        "{unit}s {m} and {n} have the same key; --duplicates first, sum or another gives it one value: "
    )?;
    with_key(alloc, words.as_str(), first.key.as_slice())
}

/// Returns that a second key is not above the first.
fn above_words(
    alloc: Global,
    unit: &str,
    first: &NumberedKey,
    second: &NumberedKey,
) -> Result<Vec<u8>, AllocError>
    ensures { IfOk result (λ words. words.items ≡ above_words unit.now first.now second.now) }
{
    let (m, n) = (first.number, second.number);
    let words = format!(in alloc;
        "{unit} {n}: its key is not above that of {unit} {m}; sort the input by the bytes of its keys, or leave out --sorted: "
    )?;
    with_key(alloc, words.as_str(), second.key.as_slice())
}

/// Returns that a key is not ASCII.
fn ascii_words(alloc: Global, unit: &str, key: &NumberedKey) -> Result<Vec<u8>, AllocError>
    ensures { IfOk result (λ words. words.items ≡ ascii_words unit.now key.now) }
{
    let number = key.number;
    let words = format!(in alloc;
        "{unit} {number}: its key is not ASCII; take --kind hash or --kind ext: "
    )?;
    with_key(alloc, words.as_str(), key.key.as_slice())
}

/// Returns why keys are refused together, with the numbers of their pairs, and the keys that show it.
fn keys_words(alloc: Global, unit: &str, shown: &Shown) -> Result<Vec<u8>, AllocError>
    ensures { IfOk result (λ words. words.items
        ≡ keys_words shown.now.error unit.now shown.now.first shown.now.second) }
{
    let (first, second) = (&shown.first, &shown.second);
    match &shown.error {
        ZeroTrieBuildError::DuplicateKey => same_words(alloc, unit, first, second),
        ZeroTrieBuildError::Unsorted => {
            if first.key.as_slice() == second.key.as_slice() {
                same_words(alloc, unit, first, second)
            } else {
                above_words(alloc, unit, first, second)
            }
        }
        ZeroTrieBuildError::NonAsciiError => ascii_words(alloc, unit, first),
        ZeroTrieBuildError::MixedCase
        | ZeroTrieBuildError::CapacityExceeded
        | ZeroTrieBuildError::CouldNotSolvePerfectHash
        | ZeroTrieBuildError::IllegalDelimiter
        | ZeroTrieBuildError::BufferTooSmall
        | ZeroTrieBuildError::BufferTooLarge(_)
        | ZeroTrieBuildError::StackExceeded
        | ZeroTrieBuildError::OutOfMemory => case_words(alloc, unit, first, second),
    }
}

/// Returns at which pair the sum of the values of its key gets too large, and the key.
fn sum_words(alloc: Global, unit: &str, key: &NumberedKey) -> Result<Vec<u8>, AllocError>
    ensures { IfOk result (λ words. words.items ≡ sum_words unit.now key.now) }
{
    let number = key.number;
    let words = format!(in alloc;
        "{unit} {number}: the sum of the values of its key is 2^64 or more: "
    )?;
    with_key(alloc, words.as_str(), key.key.as_slice())
}

/// Returns why the build of a trie fails though no key is at fault.
fn refused_words(error: &ZeroTrieBuildError) -> &'static str
    ensures { result.now ≡ refused_words error.now }
{
    match error {
        ZeroTrieBuildError::CapacityExceeded => {
            "the trie would be too long for its kind: take --kind ext, or fewer pairs"
        }
        ZeroTrieBuildError::CouldNotSolvePerfectHash => {
            "no hashed table was found for the bytes that keys go on with at some place, as happens if these are random: take --index for get and verify alone, --kind simple if all keys are ASCII, or other keys, as their hexadecimal digits"
        }
        ZeroTrieBuildError::NonAsciiError
        | ZeroTrieBuildError::MixedCase
        | ZeroTrieBuildError::IllegalDelimiter
        | ZeroTrieBuildError::DuplicateKey
        | ZeroTrieBuildError::Unsorted
        | ZeroTrieBuildError::BufferTooSmall
        | ZeroTrieBuildError::BufferTooLarge(_)
        | ZeroTrieBuildError::StackExceeded
        | ZeroTrieBuildError::OutOfMemory => "the build of the pairs is refused",
    }
}

/// Returns why the build of an index fails though no key is at fault.
fn index_refused_words(error: &ZeroIndexBuildError) -> &'static str
    ensures { result.now ≡ index_refused_words error.now }
{
    match error {
        ZeroIndexBuildError::CapacityExceeded => {
            "the pairs of the index would have 4 GiB or more: leave out --index, or take fewer pairs"
        }
        ZeroIndexBuildError::Crowded => {
            "more than 16 keys share a bucket of the index, whichever of 8 seeds is taken, as happens if they are chosen for that: leave out --index, or take other keys"
        }
        ZeroIndexBuildError::Unsorted
        | ZeroIndexBuildError::DuplicateKey
        | ZeroIndexBuildError::OutOfMemory => "the build of the pairs is refused",
    }
}

/// Returns why no file is made of pairs.
pub fn made_words(alloc: Global, unit: PairUnit, error: &MakeError) -> Result<Vec<u8>, AllocError>
    ensures { IfOk result (λ words. AreMadeWords unit error.now words.items) }
{
    match error {
        MakeError::NotText(other) => Vec::from_slice(alloc, other_words(*other).as_bytes()),
        MakeError::Line(number, bad) => bad_words(alloc, unit, *number, bad),
        MakeError::NotJson(line, column) => json_words(alloc, *line, *column),
        MakeError::NotPairs => Vec::from_slice(alloc, b"neither an object nor a list"),
        MakeError::NotPair(bad) => no_pair_words(alloc, bad),
        MakeError::Keys(shown) => keys_words(alloc, unit.word(), shown),
        MakeError::SumTooLarge(key) => sum_words(alloc, unit.word(), key),
        MakeError::Refused(error) => Vec::from_slice(alloc, refused_words(error).as_bytes()),
        MakeError::IndexRefused(error) => {
            Vec::from_slice(alloc, index_refused_words(error).as_bytes())
        }
        MakeError::OutOfMemory => Vec::from_slice(alloc, b"out of memory"),
    }
}
