//! The lines that are printed, each added to a buffer.

ghost use Rattle.std.specs.Prelude.{◌≡◌, ◌++◌, OnOk};
ghost use Rattle.std.specs.List.{list_all};
ghost use Rattle.zerotrie_queries.specs.Printed.{number_line, edits_line, value_line, key_line, front_line, found_line, pair_line, is_csv_plain, doubled, csv_field};
ghost use Rattle.zerotrie_queries.specs.declared.print.Style.TheVariants.{Csv};

use crate::json_text::add_pair_json;
use std::alloc::AllocError;
use zerotrie_lines::{write_escaped, write_number, write_pair};

/// What the line of a pair is.
#[derive(Clone, Copy, PartialEq, Eq, Debug)]
pub enum Style {
    /// A key with escapes, a tab and its value.
    Tsv,
    /// A key as it is, a tab and its value. No key may have a tab or a line feed.
    TsvRaw,
    /// A key, a comma and its value. The key is in quotes unless all of its bytes are printable
    /// ASCII and none is a quotation mark or a comma.
    Csv,
    /// A JSON list of the key and its value. The key is a string, or a list of its bytes if it is
    /// not UTF-8.
    JsonLines,
    /// A key as it is.
    Keys,
    /// A value.
    Values,
}

/// How pairs are printed.
#[derive(Clone, Copy, PartialEq, Eq, Debug)]
pub enum Form {
    /// A line a pair.
    Lines(Style),
    /// A line a pair: the key with escapes, a tab, the value, a tab, and how many edits make the key of
    /// the word by which keys are sought. They are 0 if there is no word, if keys are not sought by
    /// edits, or if they need only begin with one that the word finds.
    Distances,
    /// One JSON object from key to value. Each key must be UTF-8.
    Json,
    /// A line that says how many there are.
    Count,
}

/// Adds a text to a line.
pub fn add_text(line: &mut Vec<u8>, text: &str) -> Result<(), AllocError>
    ensures { OnOk result (line.new.items ≡ line.old.items ++ text.now) }
{
    line.extend_from_slice(text.as_bytes())
}

pub fn add_number_line(line: &mut Vec<u8>, number: usize) -> Result<(), AllocError>
    ensures { OnOk result (line.new.items ≡ line.old.items ++ number_line number) }
{
    write_number(line, number)?;
    line.push(b'\n')?;
    Ok(())
}

/// Adds the line of an answer: the value, or `none`.
pub fn add_value(line: &mut Vec<u8>, value: Option<usize>) -> Result<(), AllocError>
    ensures { OnOk result (line.new.items ≡ line.old.items ++ value_line value) }
{
    match value {
        Some(value) => add_number_line(line, value),
        None => line.extend_from_slice(b"none\n"),
    }
}

/// Adds the line of a key and its value, or `none`.
pub fn add_key_value(line: &mut Vec<u8>, key: &[u8], value: Option<usize>) -> Result<(), AllocError>
    ensures { OnOk result (line.new.items ≡ line.old.items ++ key_line key.now value) }
{
    match value {
        Some(value) => write_pair(line, key, value),
        None => {
            write_escaped(line, key)?;
            line.extend_from_slice(b"\tnone\n")
        }
    }
}

/// Adds the line of a key that a text begins with, given its length and value.
pub fn add_front(
    line: &mut Vec<u8>,
    text: &[u8],
    len: usize,
    value: usize,
) -> Result<(), AllocError>
    ensures { OnOk result (line.new.items ≡ line.old.items ++ front_line text.now (len, value)) }
{
    let (key, _) = text.split_at(len.min(text.len()));
    write_pair(line, key, value)
}

/// Adds the line of the longest key that a text begins with, given its length and value, or `none`.
pub fn add_found(
    line: &mut Vec<u8>,
    text: &[u8],
    found: Option<(usize, usize)>,
) -> Result<(), AllocError>
    ensures { OnOk result (line.new.items ≡ line.old.items ++ found_line text.now found) }
{
    match found {
        Some((len, value)) => add_front(line, text, len, value),
        None => line.extend_from_slice(b"none\n"),
    }
}

/// Returns whether a field of CSV can have a byte without quotes.
fn is_csv_plain(byte: u8) -> bool
    ensures { result ≡ is_csv_plain byte }
{
    byte >= 32 && byte <= 126 && byte != b'"' && byte != b','
}

fn are_csv_plain(bytes: &[u8]) -> bool
    ensures { result ≡ list_all is_csv_plain bytes.now }
{
    for byte in bytes {
        if !is_csv_plain(*byte) {
            return false;
        }
    }
    true
}

/// Adds bytes with each quotation mark twice.
fn add_doubled(line: &mut Vec<u8>, bytes: &[u8]) -> Result<(), AllocError>
    ensures { OnOk result (line.new.items ≡ line.old.items ++ doubled bytes.now) }
{
    for byte in bytes {
        if *byte == b'"' {
            line.push(b'"')?;
        }
        line.push(*byte)?;
    }
    Ok(())
}

/// Adds a field of CSV, in quotes if it needs them.
fn add_csv_field(line: &mut Vec<u8>, key: &[u8]) -> Result<(), AllocError>
    ensures { OnOk result (line.new.items ≡ line.old.items ++ csv_field key.now) }
{
    if are_csv_plain(key) {
        return line.extend_from_slice(key);
    }
    line.push(b'"')?;
    add_doubled(line, key)?;
    line.push(b'"')?;
    Ok(())
}

fn add_csv(line: &mut Vec<u8>, key: &[u8], value: usize) -> Result<(), AllocError>
    ensures { OnOk result (line.new.items ≡ line.old.items ++ pair_line Csv (key.now, value)) }
{
    add_csv_field(line, key)?;
    line.push(b',')?;
    add_number_line(line, value)
}

pub fn add_pair(
    line: &mut Vec<u8>,
    style: Style,
    key: &[u8],
    value: usize,
) -> Result<(), AllocError>
    ensures { OnOk result (line.new.items ≡ line.old.items ++ pair_line style (key.now, value)) }
{
    match style {
        Style::Tsv => write_pair(line, key, value),
        Style::TsvRaw => {
            line.extend_from_slice(key)?;
            line.push(b'\t')?;
            add_number_line(line, value)
        }
        Style::Csv => add_csv(line, key, value),
        Style::JsonLines => {
            add_pair_json(line, key, value)?;
            line.push(b'\n')?;
            Ok(())
        }
        Style::Keys => {
            line.extend_from_slice(key)?;
            line.push(b'\n')?;
            Ok(())
        }
        Style::Values => add_number_line(line, value),
    }
}

/// Adds the line of a pair and of how many edits make its key of a word.
pub fn add_edits(
    line: &mut Vec<u8>,
    key: &[u8],
    value: usize,
    edits: usize,
) -> Result<(), AllocError>
    ensures { OnOk result (line.new.items ≡ line.old.items ++ edits_line (key.now, value) edits) }
{
    write_escaped(line, key)?;
    line.push(b'\t')?;
    write_number(line, value)?;
    line.push(b'\t')?;
    add_number_line(line, edits)
}
