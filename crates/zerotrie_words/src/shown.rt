//! What completions, the man page and messages show of the rows of commands.

use crate::arguments::{Argument, Form, Otherwise, Subcommand};
use std::fmt;

/// A list of words without any.
pub const NO_WORDS: &[&str] = &[];

/// What is shown of an argument beside its name and its help.
#[derive(Clone, Copy)]
pub struct Shown {
    /// The letter of an option.
    pub letter: Option<char>,
    /// How help calls its word. A flag has none.
    pub value: Option<&'static str>,
    /// The words of which its word is one. There are none if it may be another.
    pub words: &'static [&'static str],
    pub otherwise: Otherwise,
}

impl Argument {
    /// Returns what is shown of it.
    pub fn shown(&self) -> Shown {
        let (letter, value, words, otherwise) = match self.form {
            Form::Place | Form::Words => (None, Some(self.name), NO_WORDS, Otherwise::Refused),
            Form::Word(words) => (None, Some(self.name), words, Otherwise::Refused),
            Form::Flag(letter) => (letter, None, NO_WORDS, Otherwise::Nothing),
            Form::Text(value, letter, otherwise) => (letter, Some(value), NO_WORDS, otherwise),
            Form::Number(value, letter, _) => (letter, Some(value), NO_WORDS, Otherwise::Nothing),
            Form::OneOf(value, letter, words, otherwise) => (letter, Some(value), words, otherwise),
        };
        Shown {
            letter,
            value,
            words,
            otherwise,
        }
    }

    /// Returns whether it is an option, which is given by its name.
    pub fn is_option(&self) -> bool {
        !matches!(self.form, Form::Place | Form::Word(_) | Form::Words)
    }

    /// Returns whether it may have several words.
    pub fn is_many(&self) -> bool {
        matches!(self.form, Form::Words)
    }

    /// Returns whether a word is the name or the letter of this option.
    fn is_named(&self, word: &str) -> bool {
        match (word.strip_prefix("--"), self.shown().letter) {
            (Some(name), _) => name == self.name,
            (None, Some(letter)) => {
                word.len() == 2 && word.starts_with('-') && word.ends_with(letter)
            }
            (None, None) => false,
        }
    }
}

impl Subcommand {
    /// Returns the option with this name or letter.
    pub fn option(&self, word: &str) -> Option<&'static Argument> {
        let mut options = self.arguments.iter().filter(|it| it.is_option());
        options.find(|it| it.is_named(word))
    }
}

/// What may be there, between two texts. If it is not, there is nothing.
#[derive(Drop)]
pub struct Maybe<T>(pub &'static str, pub Option<T>, pub &'static str);

impl<T: fmt::Display> fmt::Display for Maybe<T> {
    fn fmt<W: fmt::Write>(&self, f: &mut fmt::Formatter<W>) -> fmt::Result {
        match &self.1 {
            Some(it) => write!(f, "{}{it}{}", self.0, self.2),
            None => Ok(()),
        }
    }
}

/// A list of words with a text in front of the first, one in front of others, and one at the end. Of no
/// words there is only the last.
#[derive(Drop)]
pub struct Listed(pub [&'static str; 3], pub &'static [&'static str]);

impl fmt::Display for Listed {
    fn fmt<W: fmt::Write>(&self, f: &mut fmt::Formatter<W>) -> fmt::Result {
        let [mut front, between, end] = self.0;
        for word in self.1 {
            write!(f, "{front}{word}")?;
            front = between;
        }
        f.write_str(end)
    }
}

/// A text in which some letters are spelt in another way. Each word of the list begins with such a
/// letter, and goes on with how it is spelt.
#[derive(Drop)]
pub struct Spelt<'a>(pub &'a str, pub &'static str);

impl fmt::Display for Spelt<'_> {
    fn fmt<W: fmt::Write>(&self, f: &mut fmt::Formatter<W>) -> fmt::Result {
        for letter in self.0.chars() {
            match self.1.split(' ').find_map(|it| it.strip_prefix(letter)) {
                Some(spelt) => f.write_str(spelt)?,
                None => write!(f, "{letter}")?,
            }
        }
        Ok(())
    }
}
