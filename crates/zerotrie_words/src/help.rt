//! The texts of help and of errors of the command line.

use crate::arguments::{Form, Rows, Subcommand};
use std::alloc::{AllocError, Global};
use std::str;
use zerotrie_lines::write_escaped;

/// How many columns a line of help has at most.
const WIDTH: usize = 80;

/// What is said of words that are lacking.
const OR_INPUT: &str = ", or - for standard input";

/// Returns the column at which the text of a line of help begins: after the names of an option and
/// the spaces behind them.
fn text_column(line: &str) -> usize {
    let names = line.trim_start_matches(' ');
    let (_, text) = names.split_once("  ").unwrap_or(("", names));
    line.len()
        .saturating_sub(text.trim_start_matches(' ').len())
}

/// Adds a line of help, broken at spaces where it is too wide. Its text goes on below its text.
fn add_line(help: &mut String, line: &str) -> Result<(), AllocError> {
    let column = text_column(line);
    let mut width = 0usize;
    for (index, word) in line.split(' ').enumerate() {
        let wider = width.saturating_add(1).saturating_add(word.len());
        if index == 0 {
            width = word.len();
        } else if wider > WIDTH && width > column {
            write!(help, "\n{:column$}", "")?;
            width = column.saturating_add(word.len());
        } else {
            help.push_str(" ")?;
            width = wider;
        }
        help.push_str(word)?;
    }
    help.push_str("\n")
}

/// Returns a text of help whose lines have at most 80 columns, if its words are short enough.
fn wrapped(alloc: Global, text: &str) -> Result<String, AllocError> {
    let mut help = String::new(alloc);
    for line in text.lines() {
        add_line(&mut help, line)?;
    }
    Ok(help)
}

/// Returns whether a line of an error is said: not the tip to pass an option as a value, which is
/// wrong where no value is asked for, nor where help is, which the last line says.
fn is_said(line: &str) -> bool {
    !line.starts_with("  tip: to pass") && !line.starts_with("For more information")
}

/// Returns an option of a command that wants a text, and the word behind it, if that begins with a
/// hyphen: clap takes it for an option. `None` if there is none.
fn text_apart<'a>(row: &Subcommand, words: &'a [String]) -> Option<(&'a str, &'a str)> {
    let mut before = "";
    for word in words {
        let word = word.as_str();
        if before == "--" {
            return None;
        }
        let form = row.option(before).map(|it| &it.form);
        if word.starts_with("-") && word != "-" && matches!(form, Some(Form::Text(_, _, _))) {
            return Some((before, word));
        }
        before = word;
    }
    None
}

/// Returns the first option among words that a command lacks, and another command that has it. `None`
/// if there is none: no command has `--`, which ends the options.
fn elsewhere<'a>(
    rows: Rows<'_>,
    row: &Subcommand,
    words: &'a [String],
) -> Option<(&'a str, &'a str)> {
    let mut options = words
        .iter()
        .map(|it| it.as_str().split('=').next().unwrap_or(""));
    let option = options.find(|it| it.starts_with("--") && row.option(it).is_none())?;
    let mut all = rows.iter().copied().flatten();
    Some((option, all.find(|it| it.option(option).is_some())?.name))
}

/// Returns a text with escapes, as a word in it may have bytes that steer a terminal.
fn escaped(alloc: Global, text: &str) -> Result<String, AllocError> {
    let mut bytes = Vec::new(alloc);
    write_escaped(&mut bytes, text.as_bytes())?;
    // escapes of a text are one
    String::from_str(alloc, str::from_utf8(bytes.as_slice()).unwrap_or(""))
}

/// Returns an error of clap as the program says it: words that are lacking may be `-`. Then come a tip,
/// if clap gave none and there is one, and where help is.
fn error_of(
    alloc: Global,
    error: &str,
    rows: Rows<'_>,
    words: &[String],
) -> Result<String, AllocError> {
    let mut text = String::from_str(alloc, "zerotrie: ")?;
    let mut was_empty = false;
    for line in error.lines().filter(|it| is_said(it)) {
        if !(line.is_empty() && was_empty) {
            let lacks = line.starts_with("  <") && line.ends_with(">...");
            let input = if lacks { OR_INPUT } else { "" };
            write!(text, "{}{input}\n", escaped(alloc, line)?)?;
        }
        was_empty = line.is_empty();
    }
    let command = words.get(1).map_or("", |word| word.as_str());
    let mut all = rows.iter().copied().flatten();
    let Some(row) = all.find(|row| row.name == command) else {
        text.push_str("zerotrie --help shows the commands\n")?;
        return Ok(text);
    };
    if let Some((option, word)) = text_apart(row, words) {
        let joint = if option.starts_with("--") { "=" } else { "" };
        write!(
            text,
            "  tip: write {option}{joint}{}",
            escaped(alloc, word)?
        )?;
        text.push_str(" for a text that begins with a hyphen\n")?;
    } else if !text.as_str().contains("  tip: ") {
        let asks_order = |word: &String| matches!(word.as_str(), "-S" | "--sorted");
        if row.name == "search" && words.iter().any(asks_order) {
            text.push_str("  tip: search prints in the order of the keys' bytes without it\n")?;
        } else if let Some((option, name)) = elsewhere(rows, row, words) {
            write!(text, "  tip: {option} is an option of {name}\n")?;
        }
    }
    write!(text, "zerotrie {command} --help shows the options\n")?;
    Ok(text)
}

/// Returns what clap says of words as the program says it: an error as its other messages, help with
/// short lines.
pub fn text_of(
    alloc: Global,
    said: &clap::Error,
    rows: Rows<'_>,
    words: &[String],
) -> Result<String, AllocError> {
    let text = format!(in alloc; "{said}")?;
    match text.as_str().strip_prefix("error: ") {
        Some(error) => error_of(alloc, error, rows, words),
        None => wrapped(alloc, text.as_str()),
    }
}
