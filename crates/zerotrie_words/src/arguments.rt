//! The rows of commands as clap takes them.

ghost use Rattle.std.specs.Prelude.{◌≡◌, false, IfOk, map};
ghost use Rattle.clap.specs.Words.{app_of, rule_of};
ghost use Rattle.zerotrie_words.specs.Arguments.{app_by, as_named, as_option, left_out, program_by, rule_by, with_rows};

use crate::table::{STATUSES, VERSION};
use clap::builder::ValueParser;
use clap::{Arg, ArgAction, Command};
use std::alloc::{AllocError, Global};

/// What holds if an option is left out.
#[derive(Clone, Copy)]
pub enum Otherwise {
    /// The words are no command.
    Refused,
    /// Its word is this one.
    Is(&'static str),
    /// It has no word.
    Nothing,
}

/// How an argument stands on the command line. An option may have a letter, too.
pub enum Form {
    /// A word at its place, which has to be there.
    Place,
    /// One of these words at its place, which has to be there.
    Word(&'static [&'static str]),
    /// Words, one at least.
    Words,
    /// Its name alone.
    Flag(Option<char>),
    /// Its name and a word after it, which help calls so.
    Text(&'static str, Option<char>, Otherwise),
    /// Its name and a number up to this one after it, which help calls so.
    Number(&'static str, Option<char>, u64),
    /// Its name and one of these words after it, which help calls so.
    OneOf(&'static str, Option<char>, &'static [&'static str], Otherwise),
}

/// An argument, with the help for it.
pub struct Argument {
    pub name: &'static str,
    pub form: Form,
    pub help: &'static str,
}

/// A command: its name, what it is for, the end of its help, and its arguments in the order of the
/// help.
pub struct Subcommand {
    pub name: &'static str,
    pub about: &'static str,
    pub help: &'static str,
    pub arguments: &'static [Argument],
}

/// Rows of commands, in parts.
pub type Rows<'a> = &'a [&'static [Subcommand]];

/// Returns an option with what holds if it is left out.
fn or_otherwise<'a>(option: Arg<'a>, otherwise: &Otherwise) -> Arg<'a>
    ensures { result ≡ left_out otherwise.now option.entry }
{
    match otherwise {
        Otherwise::Refused => option.required(true),
        Otherwise::Is(word) => option.default_value(word),
        Otherwise::Nothing => option,
    }
}

/// Returns an option with its name and its letter, if it has one.
fn named<'a>(option: Arg<'a>, name: &'static str, letter: Option<char>) -> Arg<'a>
    ensures { result ≡ as_named name.entry letter option.entry }
{
    let option = option.long(name);
    match letter {
        Some(letter) => option.short(letter),
        None => option,
    }
}

/// Returns an option with a word after its name, which help calls so.
fn with_word<'a>(
    option: Arg<'a>,
    name: &'static str,
    letter: Option<char>,
    value: &'static str,
) -> Arg<'a>
    ensures { result ≡ as_option name.entry letter value.entry option.entry }
{
    named(option, name, letter)
        .action(ArgAction::Set)
        .value_name(value)
}

impl Argument {
    /// Returns the argument as clap takes it.
    fn to_clap<'a>(&self, alloc: Global) -> Arg<'a>
        ensures rule { rule_of result ≡ rule_by self.now }
        ensures local { result.global ≡ false }
    {
        let arg = Arg::new(alloc, self.name).help(self.help);
        match &self.form {
            Form::Place => arg.action(ArgAction::Set).required(true),
            Form::Word(words) => arg
                .action(ArgAction::Set)
                .required(true)
                .value_parser(*words),
            Form::Words => arg.action(ArgAction::Append).num_args(1..).required(true),
            Form::Flag(letter) => named(arg, self.name, *letter).action(ArgAction::SetTrue),
            Form::Text(value, letter, otherwise) => {
                or_otherwise(with_word(arg, self.name, *letter, value), otherwise)
            }
            Form::Number(value, letter, most) => {
                with_word(arg, self.name, *letter, value).value_parser(ValueParser::unsigned(
                    0, *most,
                ))
            }
            Form::OneOf(value, letter, words, otherwise) => {
                let option = with_word(arg, self.name, *letter, value);
                or_otherwise(option.value_parser(*words), otherwise)
            }
        }
    }
}

impl Subcommand {
    /// Returns the command as clap takes it.
    fn to_clap<'a>(&self, alloc: Global) -> Result<Command<'a>, AllocError>
        ensures { IfOk result (λ command. app_of command ≡ app_by self.now) }
    {
        let mut command = Command::new(alloc, self.name)
            .about(self.about)
            .after_help(self.help);
        for argument in self.arguments {
            command = command.arg(argument.to_clap(alloc))?;
        }
        Ok(command)
    }
}

/// Adds the commands of these rows to a program.
fn with_commands<'a>(
    alloc: Global,
    mut program: Command<'a>,
    rows: &[Subcommand],
) -> Result<Command<'a>, AllocError>
    ensures { IfOk result (λ whole. app_of whole ≡ with_rows (app_of program.entry) rows.now) }
{
    for row in rows {
        program = program.subcommand(row.to_clap(alloc)?)?;
    }
    Ok(program)
}

/// Returns what the command line may be, by rows of commands.
pub fn program<'a>(alloc: Global, rows: Rows<'_>) -> Result<Command<'a>, AllocError>
    ensures { IfOk result (λ program.
        app_of program ≡ program_by (map (λ part. part.now) rows.now)) }
{
    let mut program = Command::new(alloc, "zerotrie")
        .bin_name("zerotrie")?
        .version(VERSION)
        .about("Makes tries in files and reads them")
        .after_help(STATUSES)
        .subcommand_required(true)
        .arg_required_else_help(true);
    for part in rows {
        program = with_commands(alloc, program, *part)?;
    }
    Ok(program)
}
