//! Where a text ceases to be JSON.

ghost use Rattle.std.specs.Prelude.{◌≡◌, IfOk, take};
ghost use Rattle.zerotrie_making.specs.Places.{begins_character, line_after, column_after};
ghost use Rattle.zerotrie_making.specs.Sources.{IsNotJson};
ghost use Rattle.zerotrie_making.specs.declared.error.MakeError.TheVariants.{NotJson};

use crate::error::MakeError;
use json::{MAX_DEPTH, Reader, Scratch, Token};
use std::alloc::{AllocError, Global};

/// What is before a place in a JSON text.
#[derive(Drop)]
struct Front {
    /// The open brackets, the outermost first: whether each is that of an object.
    objects: Vec<bool>,
    /// Whether a key is just before, whose value must follow.
    after_key: bool,
    /// Whether the whole value is before.
    is_done: bool,
}

impl Front {
    /// Returns whether a token may follow.
    fn fits(&self, token: Token<'_>) -> bool {
        let in_object = self.objects.last().copied();
        match token {
            Token::Bad => false,
            Token::Key(_) | Token::EndObject => in_object == Some(true) && !self.after_key,
            Token::EndArray => in_object == Some(false),
            Token::BeginObject | Token::BeginArray if self.objects.len() >= MAX_DEPTH => false,
            _ => match in_object {
                Some(true) => self.after_key,
                Some(false) => true,
                None => !self.is_done,
            },
        }
    }

    /// Passes a token.
    fn pass(&mut self, token: Token<'_>) -> Result<(), AllocError> {
        match token {
            Token::BeginObject => self.objects.push(true)?,
            Token::BeginArray => self.objects.push(false)?,
            Token::EndObject | Token::EndArray => {
                self.objects.pop();
            }
            _ => {}
        }
        self.after_key = matches!(token, Token::Key(_));
        self.is_done = self.objects.is_empty();
        Ok(())
    }
}

/// Returns where the first token begins that can't be there, or the end of a text that lacks one.
fn first_misfit(alloc: Global, text: &str) -> Result<usize, AllocError> {
    let mut scratch = Scratch::new(alloc);
    let mut reader = Reader::new(text, &mut scratch)?;
    let mut front = Front {
        objects: Vec::new(alloc),
        after_key: false,
        is_done: false,
    };
    let mut place = reader.offset();
    while let Some(token) = reader.next() {
        if !front.fits(token) {
            break;
        }
        front.pass(token)?;
        place = reader.offset();
    }
    Ok(place)
}

/// Returns whether a byte of UTF-8 begins a character.
fn begins_character(byte: u8) -> bool
    ensures { result ≡ begins_character byte }
{
    byte < 128 || 192 <= byte
}

/// Returns the line and the column after these bytes, both from 1 on. Columns are characters.
fn line_and_column(front: &[u8]) -> (usize, usize)
    ensures line { result.0 ≡ line_after front.now }
    ensures column { result.1 ≡ column_after front.now }
{
    let mut line: usize = 1;
    let mut column: usize = 1;
    for byte in front {
        if *byte == b'\n' {
            line = line.saturating_add(1);
            column = 1;
        } else if begins_character(*byte) {
            column = column.saturating_add(1);
        }
    }
    (line, column)
}

/// Returns what is before a place, or all of a text that is shorter.
#[tactic(auto, using(crate::proofs::PlaceLemmas::all_of))]
fn front_of(text: &[u8], place: usize) -> &[u8]
    ensures { result.now ≡ take place text.now }
{
    if place < text.len() {
        &text[..place]
    } else {
        text
    }
}

/// Returns the error of a text that is no JSON value from this place on.
pub(crate) fn not_json(text: &[u8], place: usize) -> MakeError
    ensures { let front = take place text.now in
        result ≡ NotJson (line_after front) (column_after front) }
{
    let (line, column) = line_and_column(front_of(text, place));
    MakeError::NotJson(line, column)
}

/// Returns the error of a text that is no JSON value, with the place that shows it.
pub(crate) fn why_no_json(alloc: Global, text: &str) -> Result<MakeError, AllocError>
    ensures { IfOk result (IsNotJson text.now) }
{
    let place = first_misfit(alloc, text)?;
    Ok(not_json(text.as_bytes(), place))
}
