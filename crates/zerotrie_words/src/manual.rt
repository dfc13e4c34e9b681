//! The man page, by the rows of commands.
//!
//! Its text is written with « and » round what is bold, and ‹ and › round what is italic.

use crate::arguments::{Argument, Otherwise, Rows, Subcommand};
use crate::notes::NOTES;
use crate::shown::{Listed, Maybe, Spelt};
use crate::table::{STATUSES, VERSION};
use std::alloc::{AllocError, Global};

const NAME: &str = ".SH NAME\n\
    zerotrie - makes tries in files and reads them\n\
    .SH SYNOPSIS\n";

const DESCRIPTION: &str = ".SH DESCRIPTION\n\
    A trie is a read-only map from byte strings, the keys, to numbers below 2^64, as one list of\n\
    bytes. A file of one has a header with its kind, its length and a checksum in front.\n\
    Every function of the program’s library is proved to meet its contract.\n\
    .SH OPTIONS\n\
    .TP\n\
    «-h», «--help»\n\
    Print help, also of a command\n\
    .TP\n\
    «-V», «--version»\n\
    Print the version\n\
    .SH COMMANDS\n";

const END: &str = ".SH SEE ALSO\n\
    The file FORMAT.md describes the bytes, and zerotrie.h the library for C.\n";

/// The requests of roff for fonts, and those for letters that begin or are one.
const ROFF: &str = r"«\fB »\fR ‹\fI ›\fR \\e -\- '\(aq ’' ^\(ha ~\(ti";

/// Returns how a command is called.
fn call_of(alloc: Global, row: &Subcommand) -> Result<String, AllocError> {
    let mut call = format!(in alloc; "«zerotrie {}»", row.name)?;
    if row.arguments.iter().any(|it| it.is_option()) {
        call.push_str(" [OPTIONS]")?;
    }
    for argument in row.arguments {
        let it = argument.shown();
        if matches!(it.otherwise, Otherwise::Refused) {
            let name = Maybe("--", argument.is_option().then_some(argument.name), " ");
            let value = it.value.unwrap_or("");
            let many = if argument.is_many() { ".." } else { "" };
            write!(call, " {name}{value}{many}")?;
        }
    }
    call.push_str("\n")?;
    Ok(call)
}

/// Adds the entry of an argument: its names, its help, its words and its default.
fn add_argument(page: &mut String, argument: &Argument) -> Result<(), AllocError> {
    let it = argument.shown();
    write!(page, ".TP\n{}", Maybe("«-", it.letter, "», "))?;
    if argument.is_option() {
        write!(page, "«--{}»{}", argument.name, Maybe(" ‹", it.value, "›"))?;
    } else {
        write!(page, "‹{}›", argument.name)?;
    }
    write!(page, "\n{}", argument.help)?;
    if !it.words.is_empty() {
        write!(page, "{}", Listed([" (", ", ", ")"], it.words))?;
    }
    if let Otherwise::Is(word) = it.otherwise {
        write!(page, " [default: {word}]")?;
    }
    page.push_str("\n")
}

/// Adds the lines of the help of a command, of which a status begins a paragraph, and its examples to
/// those of all.
fn add_help(page: &mut String, examples: &mut String, help: &str) -> Result<(), AllocError> {
    let mut begins = true;
    for line in help.lines() {
        if let Some(example) = line.strip_prefix("Example: ") {
            write!(examples, ".PP\n.RS\n«{example}»\n.RE\n")?;
        } else {
            begins = begins || line.starts_with("Status: ");
            let front = if begins { ".PP\n" } else { "" };
            write!(page, "{front}{line}\n")?;
            begins = false;
        }
    }
    Ok(())
}

/// Returns the page.
pub fn manual(alloc: Global, rows: Rows<'_>) -> Result<String, AllocError> {
    let mut calls = String::new(alloc);
    let mut commands = String::new(alloc);
    let mut examples = String::new(alloc);
    for row in rows.iter().copied().flatten() {
        let call = call_of(alloc, row)?;
        write!(calls, "{call}.br\n")?;
        write!(commands, ".SS {}\n{}.\n.PP\n{call}", row.name, row.about)?;
        for argument in row.arguments {
            add_argument(&mut commands, argument)?;
        }
        write!(examples, ".PP\n{}:\n", row.about)?;
        add_help(&mut commands, &mut examples, row.help)?;
    }
    let page = format!(in alloc;
        ".TH ZEROTRIE 1 \"\" \"zerotrie {VERSION}\" \"User Commands\"\n{NAME}{calls}{DESCRIPTION}{commands}.SH EXIT STATUS\n{STATUSES}\n{NOTES}.SH EXAMPLES\n{examples}{END}"
    )?;
    format!(in alloc; "{}", Spelt(page.as_str(), ROFF))
}
