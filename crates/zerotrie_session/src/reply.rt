//! The lines of the output.

ghost use Rattle.std.specs.Prelude.{◌≡◌, ◌++◌, OnOk, string_bytes};
ghost use Rattle.zerotrie_session.specs.Replies.{hex, error_name, ok_line, refused_line, number_line, pair_line, answer_word, walk_line, bad_line, list_lines};
ghost use Rattle.zerotrie.specs.Walks.{answer_of, answers_of};
ghost use Rattle.zerotrie.specs.Items.{keyed};
ghost use Rattle.zerotrie.specs.Maps.{Pairs};
ghost use Rattle.zerotrie.specs.Texts.{Lists};

use std::alloc::{AllocError, Global};
use std::collections::BTreeMap;
use zerotrie::{CursorAnswer, Trie, ZeroTrieBuildError};

/// Writes bytes in hexadecimal, or a dash if there are none.
fn write_hex(output: &mut String, bytes: &[u8]) -> Result<(), AllocError>
    ensures { OnOk result (string_bytes output.new ≡ string_bytes output.old ++ hex bytes.now) }
{
    if bytes.is_empty() {
        return output.push_str("-");
    }
    for byte in bytes {
        write!(output, "{byte:02x}")?;
    }
    Ok(())
}

/// Returns the name of the variant.
fn name_of(error: &ZeroTrieBuildError) -> &'static str
    ensures { result.now ≡ error_name error.now }
{
    match error {
        ZeroTrieBuildError::NonAsciiError => "NonAsciiError",
        ZeroTrieBuildError::CapacityExceeded => "CapacityExceeded",
        ZeroTrieBuildError::CouldNotSolvePerfectHash => "CouldNotSolvePerfectHash",
        ZeroTrieBuildError::MixedCase => "MixedCase",
        ZeroTrieBuildError::IllegalDelimiter => "IllegalDelimiter",
        ZeroTrieBuildError::DuplicateKey => "DuplicateKey",
        ZeroTrieBuildError::Unsorted => "Unsorted",
        ZeroTrieBuildError::BufferTooSmall => "BufferTooSmall",
        ZeroTrieBuildError::BufferTooLarge(_) => "BufferTooLarge",
        ZeroTrieBuildError::StackExceeded => "StackExceeded",
        ZeroTrieBuildError::OutOfMemory => "OutOfMemory",
    }
}

/// Writes the line of a build, with the bytes of the trie.
pub fn write_ok(output: &mut String, text: &[u8]) -> Result<(), AllocError>
    ensures { OnOk result (string_bytes output.new ≡ string_bytes output.old ++ ok_line text.now) }
{
    let length = text.len();
    write!(output, "ok {length} ")?;
    write_hex(output, text)?;
    writeln!(output)
}

/// Writes the line of a build that returned an error.
pub fn write_refused(output: &mut String, error: &ZeroTrieBuildError) -> Result<(), AllocError>
    ensures { OnOk result (string_bytes output.new
        ≡ string_bytes output.old ++ refused_line error.now) }
{
    let name = name_of(error);
    writeln!(output, "refused {name}")
}

/// Writes the number of a key.
pub fn write_number(output: &mut String, number: Option<usize>) -> Result<(), AllocError>
    ensures { OnOk result (string_bytes output.new
        ≡ string_bytes output.old ++ number_line number) }
{
    match number {
        Some(value) => writeln!(output, "{value}"),
        None => writeln!(output, "none"),
    }
}

/// Writes a pair.
pub fn write_pair(output: &mut String, key: &[u8], value: usize) -> Result<(), AllocError>
    ensures { OnOk result (string_bytes output.new
        ≡ string_bytes output.old ++ pair_line (key.now, value)) }
{
    write!(output, "{value} ")?;
    write_hex(output, key)?;
    writeln!(output)
}

/// Writes the result of a cursor's call.
fn write_answer(output: &mut String, answer: &CursorAnswer) -> Result<(), AllocError>
    ensures { OnOk result (string_bytes output.new
        ≡ string_bytes output.old ++ answer_word (answer_of answer.now)) }
{
    match answer {
        CursorAnswer::Stepped(None) => output.push_str("s-"),
        CursorAnswer::Stepped(Some(byte)) => {
            output.push_str("s")?;
            write_hex(output, &[*byte])
        }
        CursorAnswer::Taken(None) => output.push_str("t-"),
        CursorAnswer::Taken(Some(value)) => write!(output, "t{value}"),
        CursorAnswer::Probed(None) => output.push_str("p-"),
        CursorAnswer::Probed(Some((byte, edges))) => {
            output.push_str("p")?;
            write_hex(output, &[*byte])?;
            write!(output, "/{edges}")
        }
    }
}

/// Writes the results of a walk.
pub fn write_walk(output: &mut String, answers: &[CursorAnswer]) -> Result<(), AllocError>
    ensures { OnOk result (string_bytes output.new
        ≡ string_bytes output.old ++ walk_line (answers_of answers.now)) }
{
    if let Some((first, rest)) = answers.split_first() {
        write_answer(output, first)?;
        for answer in rest {
            output.push_str(" ")?;
            write_answer(output, answer)?;
        }
    }
    writeln!(output)
}

/// Writes that the line with this number is no command.
pub fn write_bad(output: &mut String, line_number: usize) -> Result<(), AllocError>
    ensures { OnOk result (string_bytes output.new
        ≡ string_bytes output.old ++ bad_line line_number) }
{
    writeln!(output, "bad line {line_number}")
}

/// Writes the pairs of a trie, in the order of its nodes.
pub fn write_pairs<T: Trie>(alloc: Global, trie: &T, output: &mut String) -> Result<(), AllocError>
    ensures { OnOk result ((pairs : Pairs) → Lists (T.kind trie.now) (T.bytes trie.now) pairs
        → string_bytes output.new ≡ string_bytes output.old ++ list_lines pairs) }
{
    let mut pairs = trie.stream(alloc);
    while pairs.advance()? {
        write_pair(output, pairs.key(), pairs.value())?;
    }
    Ok(())
}

/// Writes the pairs of a map, in the order of its keys.
pub fn write_sorted(map: &BTreeMap<Vec<u8>, usize>, output: &mut String) -> Result<(), AllocError>
    ensures { OnOk result (string_bytes output.new
        ≡ string_bytes output.old ++ list_lines (keyed (λ key. key.items) map.now.entries)) }
{
    for (key, value) in map {
        write_pair(output, key.as_slice(), *value)?;
    }
    Ok(())
}
