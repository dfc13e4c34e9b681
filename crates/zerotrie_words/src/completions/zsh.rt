//! Completions for zsh.

use crate::arguments::{Argument, Rows};
use crate::shown::{Maybe, Spelt};
use std::alloc::{AllocError, Global};

const BEGIN: &str = "#compdef zerotrie\n\
    # Completions of zerotrie for zsh.\n\
    _zerotrie() {\n\
    \x20   local -a commands\n\
    \x20   commands=(\n";

const AFTER_COMMANDS: &str = "        'help:Print help of a command'\n\
    \x20   )\n\
    \x20   if (( CURRENT == 2 )); then\n\
    \x20       _describe command commands\n\
    \x20       _arguments '--help[Print help]' '--version[Print version]'\n\
    \x20       return\n\
    \x20   fi\n\
    \x20   local command=$words[2]\n\
    \x20   shift words\n\
    \x20   (( CURRENT-- ))\n\
    \x20   case $command in\n";

const END: &str = " ;;\n\
    \x20   esac\n\
    }\n\
    _zerotrie \"$@\"\n";

const INDENT: &str = "            ";

/// Letters of a text between quotes in which brackets and colons mean something.
const LETTERS: &str = r"''\'' [\[ ]\] :\: \\\";

/// Adds an argument, an option by each of its names.
fn add_argument(cases: &mut String, argument: &Argument) -> Result<(), AllocError> {
    let (name, it) = (argument.name, argument.shown());
    let value = Maybe(":", it.value, ":");
    let offer = it.offer(["(", " ", ")"], "_files", "");
    let help = Spelt(argument.short_help(), LETTERS);
    if !argument.is_option() {
        let many = if argument.is_many() { "*" } else { "" };
        return write!(cases, "{INDENT}'{many}{value}{offer}' \\\n");
    }
    write!(cases, "{INDENT}'--{name}[{help}]{value}{offer}' \\\n")?;
    match it.letter {
        Some(letter) => write!(cases, "{INDENT}'-{letter}[{help}]{value}{offer}' \\\n"),
        None => Ok(()),
    }
}

/// Returns the script for zsh, with the names of all commands.
pub fn zsh(alloc: Global, rows: Rows<'_>, names: &str) -> Result<String, AllocError> {
    let mut commands = String::new(alloc);
    let mut cases = String::new(alloc);
    for row in rows.iter().copied().flatten() {
        let (name, about) = (row.name, Spelt(row.about, LETTERS));
        write!(commands, "        '{name}:{about}'\n")?;
        write!(cases, "        {name}) _arguments -s \\\n")?;
        for argument in row.arguments {
            add_argument(&mut cases, argument)?;
        }
        write!(cases, "{INDENT}'--help[Print help]' ;;\n")?;
    }
    format!(in alloc;
        "{BEGIN}{commands}{AFTER_COMMANDS}{cases}        help) _values command {names}{END}"
    )
}
