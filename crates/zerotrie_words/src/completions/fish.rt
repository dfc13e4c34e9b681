//! Completions for fish.

use crate::arguments::{Argument, Rows};
use crate::shown::{Listed, Maybe, Spelt};
use std::alloc::{AllocError, Global};

const BEGIN: &str = "# Completions of zerotrie for fish.\n\
    complete -c zerotrie -n __fish_use_subcommand -s h -l help -d 'Print help'\n\
    complete -c zerotrie -n __fish_use_subcommand -s V -l version -d 'Print version'\n\
    complete -c zerotrie -n __fish_use_subcommand -f -a help -d 'Print help of a command'\n\
    complete -c zerotrie -n '__fish_seen_subcommand_from help' -f -a '";

/// What the line of the name of a command begins with.
const COMMAND: &str = "complete -c zerotrie -n __fish_use_subcommand -f -a ";

/// What lines of a command begin with.
const LINE: &str = "complete -c zerotrie -n '__fish_seen_subcommand_from ";

/// Letters of a text between quotes.
const LETTERS: &str = r"'\' \\\";

/// Adds the line of an argument: of a place only if it has a list of words.
fn add_argument(script: &mut String, command: &str, argument: &Argument) -> Result<(), AllocError> {
    let (name, it) = (argument.name, argument.shown());
    if argument.is_option() {
        let letter = Maybe(" -s ", it.letter, "");
        let offer = it.offer([" -x -a '", " ", "'"], " -r", " -x");
        let help = Spelt(argument.short_help(), LETTERS);
        write!(script, "{LINE}{command}' -l {name}{letter}{offer}")?;
        write!(script, " -d '{help}'\n")?;
    } else if !it.words.is_empty() {
        let words = Listed([" -a '", " ", "'\n"], it.words);
        write!(script, "{LINE}{command}'{words}")?;
    }
    Ok(())
}

/// Returns the script for fish, with the names of all commands.
pub fn fish(alloc: Global, rows: Rows<'_>, names: &str) -> Result<String, AllocError> {
    let mut script = format!(in alloc; "{BEGIN}{names}'\n")?;
    for row in rows.iter().copied().flatten() {
        let (name, about) = (row.name, Spelt(row.about, LETTERS));
        write!(script, "{COMMAND}{name} -d '{about}'\n")?;
        for argument in row.arguments {
            add_argument(&mut script, name, argument)?;
        }
        write!(script, "{LINE}{name}' -l help -s h -d 'Print help'\n")?;
    }
    Ok(script)
}
