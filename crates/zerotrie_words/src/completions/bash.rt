//! Completions for bash.

use crate::arguments::{Rows, Subcommand};
use crate::shown::{Listed, Maybe};
use std::alloc::{AllocError, Global};

const BEGIN: &str = "# Completions of zerotrie for bash.\n\
    _zerotrie() {\n\
    \x20   local word=${COMP_WORDS[COMP_CWORD]} before=${COMP_WORDS[COMP_CWORD - 1]}\n\
    \x20   local command=${COMP_WORDS[1]} options= words= files=\n\
    \x20   [ \"$before\" = = ] && before=${COMP_WORDS[COMP_CWORD - 2]}\n\
    \x20   [ \"$word\" = = ] && word=\n\
    \x20   if [ \"$COMP_CWORD\" -eq 1 ]; then\n\
    \x20       mapfile -t COMPREPLY < <(compgen -W '";

const AFTER_COMMANDS: &str = " -h --help -V --version' -- \"$word\")\n\
    \x20       return\n\
    \x20   fi\n\
    \x20   case $command:$before in\n";

const WORDS: [&str; 3] = [
    "mapfile -t COMPREPLY < <(compgen -W '",
    " ",
    "' -- \"$word\")",
];

const FILES: &str =
    "compopt -o filenames 2> /dev/null\n                mapfile -t COMPREPLY < <(compgen -f -- \"$word\")";

const AFTER_VALUES: &str = "    esac\n    case $command in\n";

const END: &str = "' ;;\n\
    \x20   esac\n\
    \x20   for before in \"${COMP_WORDS[@]:2:COMP_CWORD - 2}\"; do\n\
    \x20       [[ \" $words \" == *\" $before \"* ]] && words=\n\
    \x20   done\n\
    \x20   if [[ $word == -* ]]; then\n\
    \x20       mapfile -t COMPREPLY < <(compgen -W \"$options\" -- \"$word\")\n\
    \x20   elif [ -n \"$words\" ]; then\n\
    \x20       mapfile -t COMPREPLY < <(compgen -W \"$words\" -- \"$word\")\n\
    \x20   elif [ -n \"$files\" ]; then\n\
    \x20       compopt -o filenames 2> /dev/null\n\
    \x20       mapfile -t COMPREPLY < <(compgen -f -- \"$word\")\n\
    \x20   fi\n\
    }\n\
    complete -F _zerotrie zerotrie\n";

/// Adds the case of a command: the names of its options, and the words that stand at its places. To
/// `values` it adds what completes the words of options.
fn add(values: &mut String, cases: &mut String, row: &Subcommand) -> Result<(), AllocError> {
    let command = row.name;
    write!(cases, "        {command}) options='")?;
    for option in row.arguments.iter().filter(|it| it.is_option()) {
        let (name, it) = (option.name, option.shown());
        write!(cases, "--{name} {}", Maybe("-", it.letter, " "))?;
        if it.value.is_some() {
            write!(values, "        {command}:--{name}")?;
            if let Some(letter) = it.letter {
                write!(values, "|{command}:-{letter}")?;
            }
            let offer = it.offer(WORDS, FILES, "COMPREPLY=()");
            write!(values, ") {offer}; return ;;\n")?;
        }
    }
    cases.push_str("--help -h' words='")?;
    let mut files = false;
    for place in row.arguments.iter().filter(|it| !it.is_option()) {
        let it = place.shown();
        write!(cases, "{}", Listed(["", " ", ""], it.words))?;
        files = files || it.is_file();
    }
    let files = if files { "yes" } else { "" };
    write!(cases, "' files={files} ;;\n")
}

/// Returns the script for bash, with the names of all commands.
pub fn bash(alloc: Global, rows: Rows<'_>, names: &str) -> Result<String, AllocError> {
    let mut values = String::new(alloc);
    let mut cases = String::new(alloc);
    for row in rows.iter().copied().flatten() {
        add(&mut values, &mut cases, row)?;
    }
    format!(in alloc;
        "{BEGIN}{names}{AFTER_COMMANDS}{values}{AFTER_VALUES}{cases}        help) words='{names}{END}"
    )
}
