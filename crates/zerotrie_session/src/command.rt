//! Lines parsed into commands, and why a line is bad.

ghost use Rattle.std.specs.Prelude.{◌≡◌, ◌≢◌, ◌==◌, ◌≤◌, ◌+◌, ◌-◌, ◌*◌, ◌^◌, ◌++◌, ℕ, List, map, codes, IfSome, IfNone, IfOk, IfErr, OnErr, IsTrue, ◌↔◌};
ghost use Rattle.std.specs.List.{before_first, position};
ghost use Rattle.zerotrie.specs.Machine.{Op};
ghost use Rattle.zerotrie.specs.Walks.{op_of, ops_of};
ghost use Rattle.zerotrie_session.specs.Numbers.{IsNumber};
ghost use Rattle.zerotrie_session.specs.Calls.{IsHexDigit, IsHexByte, IsOp, AreOps, words_of};
ghost use Rattle.zerotrie_session.specs.Commands.{name_of, add, HasKey, IsCommand};
ghost use Rattle.zerotrie_session.specs.BadLines.{IsNoNumber, IsNoPair, IsNoCommand, EndsInReturn, IsBadAs};
ghost use Rattle.zerotrie_session.specs.answer.Parsing.{meaning};

use std::alloc::{AllocError, Global};
use thiserror::Error;
use zerotrie::{CursorOp, TrieKind};

/// A choice of a kind of trie, as a `kind` line names it.
#[derive(Clone, Copy, PartialEq, Eq, Debug)]
pub enum Choice {
    /// `simple`, `ignore`, `hash` or `ext`.
    Named(TrieKind),
    /// `auto`: `simple` if all keys are ASCII and there are fewer than 512, else `hash`.
    Auto,
}

/// A command.
#[derive(PartialEq, Eq, Debug, Drop)]
pub enum Request<'a> {
    Kind(Choice),
    Add { value: usize, key: &'a [u8] },
    Build,
    Query(&'a [u8]),
    List,
    Walk(Vec<CursorOp>),
}

/// Returns the number with one more digit at its end, or `None` if that is 2^64 or more.
fn with_digit(value: usize, digit: u8) -> Option<usize>
    requires { (48 ≤ digit) × (digit ≤ 57) }
    ensures some { IfSome result (λ more. more ≡ 10 * value + (digit - 48)) }
    ensures none { IfNone result (2 ^ 64 ≤ 10 * value + (digit - 48)) }
{
    value.checked_mul(10)?.checked_add((digit - b'0') as usize)
}

/// Parses 1 to 20 decimal digits.
fn parse_number(digits: &[u8]) -> Result<usize, BadLine>
    ensures ok { IfOk result (IsNumber digits.now) }
    ensures err { IfErr result (IsNoNumber digits.now) }
{
    if digits.is_empty() {
        return Err(BadLine::NoValue);
    }
    if digits.len() > 20 {
        return Err(BadLine::TooManyDigits);
    }
    let mut value: usize = 0;
    for digit in digits {
        if !digit.is_ascii_digit() {
            return Err(BadLine::NoNumber);
        }
        let Some(more) = with_digit(value, *digit) else {
            return Err(BadLine::TooLarge);
        };
        value = more;
    }
    Ok(value)
}

fn first_space(text: &[u8]) -> Option<usize>
    ensures { result ≡ position (λ b. b == 32) text.now }
{
    text.iter().position(|b| *b == b' ')
}

/// Returns the bytes before the first space, and those after it.
fn split_word(text: &[u8]) -> (&[u8], &[u8])
    ensures word { result.0.now ≡ before_first (λ b. b == 32) text.now }
    ensures key { HasKey result.0.now result.1.now text.now }
{
    match first_space(text) {
        Some(place) => (&text[..place], &text[place + 1..]),
        None => (text, &[]),
    }
}

/// Returns the key after the words, which is empty if nothing follows them.
fn key_behind<'a>(words: &[u8], line: &'a [u8]) -> Option<&'a [u8]>
    ensures some { IfSome result (λ key. HasKey words.now key.now line.now) }
    ensures none { IfNone result ((key : List ℕ) → HasKey words.now key line.now → ⊥) }
{
    let rest = line.strip_prefix(words)?;
    match rest.split_first() {
        None => Some(rest),
        Some((first, key)) => { if *first == b' ' { Some(key) } else { None } }
    }
}

/// Returns the number of a hexadecimal digit, in either case.
fn parse_digit(digit: u8) -> Option<u8>
    ensures some { IfSome result (IsHexDigit digit) }
    ensures none { IfNone result ((n : ℕ) → IsHexDigit digit n → ⊥) }
{
    let value = (digit as char).to_digit(16)?;
    Some(value as u8)
}

/// Parses two hexadecimal digits.
fn parse_byte(digits: &[u8]) -> Option<u8>
    ensures some { IfSome result (IsHexByte digits.now) }
    ensures none { IfNone result ((b : ℕ) → IsHexByte digits.now b → ⊥) }
{
    let [high, low] = digits else {
        return None;
    };
    let high = parse_digit(*high)?;
    let low = parse_digit(*low)?;
    Some(16 * high + low)
}

/// Parses a word as a call of a cursor.
fn parse_op(word: &[u8]) -> Option<CursorOp>
    ensures some { IfSome result (λ op. IsOp word.now (op_of op)) }
    ensures none { IfNone result ((op : Op) → IsOp word.now op → ⊥) }
{
    let (first, digits) = word.split_first()?;
    match *first {
        b's' => {
            let byte = parse_byte(digits)?;
            Some(CursorOp::Step(byte))
        }
        b't' if digits.is_empty() => Some(CursorOp::Take),
        b'p' => {
            let index = parse_number(digits).ok()?;
            Some(CursorOp::Probe(index))
        }
        _ => None,
    }
}

fn split_words(alloc: Global, text: &[u8]) -> Result<Vec<&[u8]>, AllocError>
    ensures { IfOk result (λ words. map (λ word. word.now) words.items ≡ words_of text.now) }
{
    text.split(|b| *b == b' ').collect(alloc)
}

/// Parses the words of a text as calls of a cursor. Returns `None` if one of them is none.
fn parse_ops(alloc: Global, text: &[u8]) -> Result<Option<Vec<CursorOp>>, AllocError>
    ensures some { IfOk result (λ r.
        IfSome r (λ ops. AreOps (words_of text.now) (ops_of ops.items))) }
    ensures none { IfOk result (λ r.
        IfNone r ((ops : List Op) → AreOps (words_of text.now) ops → ⊥)) }
{
    let words = split_words(alloc, text)?;
    let mut ops = Vec::new(alloc);
    for word in &words {
        let Some(op) = parse_op(word) else {
            return Ok(None);
        };
        ops.push(op)?;
    }
    Ok(Some(ops))
}

/// Returns the choice with this name.
fn choice_named(name: &[u8]) -> Option<Choice>
    ensures some { IfSome result (λ choice. name.now ≡ name_of choice) }
    ensures none { IfNone result ((choice : Choice) → name.now ≡ name_of choice → ⊥) }
{
    if name == b"simple".as_slice() {
        Some(Choice::Named(TrieKind::Simple))
    } else if name == b"ignore".as_slice() {
        Some(Choice::Named(TrieKind::Ignore))
    } else if name == b"hash".as_slice() {
        Some(Choice::Named(TrieKind::Hash))
    } else if name == b"ext".as_slice() {
        Some(Choice::Named(TrieKind::Ext))
    } else if name == b"auto".as_slice() {
        Some(Choice::Auto)
    } else {
        None
    }
}

/// Parses the value and the key after the plus sign of a line.
fn parse_pair(text: &[u8]) -> Result<(usize, &[u8]), BadLine>
    ensures ok { IfOk result (λ pair. IsCommand (codes "+ " ++ text.now) (add pair.0 pair.1.now)) }
    ensures err { IfErr result (IsNoPair (codes "+ " ++ text.now)) }
{
    let (digits, key) = split_word(text);
    let value = parse_number(digits)?;
    Ok((value, key))
}

/// Parses a line that is not a walk.
fn parse_plain(line: &[u8]) -> Result<Request<'_>, BadLine>
    ensures ok { IfOk result (λ request. IsCommand line.now (meaning request)) }
    ensures err { IfErr result (λ bad. ((text : List ℕ) → line.now ≢ codes "walk " ++ text)
        → IsBadAs line.now bad) }
{
    if let Some(name) = line.strip_prefix(b"kind ") {
        match choice_named(name) {
            Some(choice) => Ok(Request::Kind(choice)),
            None => Err(BadLine::UnknownKind),
        }
    } else if let Some(text) = line.strip_prefix(b"+ ") {
        let (value, key) = parse_pair(text)?;
        Ok(Request::Add { value, key })
    } else if line == b"build".as_slice() {
        Ok(Request::Build)
    } else if line == b"list".as_slice() {
        Ok(Request::List)
    } else if let Some(key) = key_behind(b"?", line) {
        Ok(Request::Query(key))
    } else {
        Err(BadLine::NoCommand)
    }
}

/// Parses a line that does not end in a carriage return.
fn parse_line(alloc: Global, line: &[u8]) -> Result<Result<Request<'_>, BadLine>, AllocError>
    ensures ok { IfOk result (λ r. IfOk r (λ request. IsCommand line.now (meaning request))) }
    ensures err { IfOk result (λ r. IfErr r (IsBadAs line.now)) }
{
    match line.strip_prefix(b"walk ") {
        None => Ok(parse_plain(line)),
        Some(text) => match parse_ops(alloc, text)? {
            None => Ok(Err(BadLine::NoCall)),
            Some(ops) => Ok(Ok(Request::Walk(ops))),
        },
    }
}

/// Returns whether the line ends in a carriage return.
fn ends_in_return(line: &[u8]) -> bool
    ensures { IsTrue result ↔ EndsInReturn line.now }
{
    line.ends_with(b"\r")
}

/// Parses a line. If it ends in a carriage return, that is why it is bad.
pub fn parse(alloc: Global, line: &[u8]) -> Result<Result<Request<'_>, BadLine>, AllocError>
    ensures ok { IfOk result (λ r. IfOk r (λ request. IsCommand line.now (meaning request))) }
    ensures none { IfOk result (λ r. OnErr r (IsNoCommand line.now)) }
    ensures why { IfOk result (λ r. IfErr r (IsBadAs line.now)) }
    ensures named { IfOk result (λ r.
        IfErr r (λ bad. EndsInReturn line.now → bad ≡ BadLine.CarriageReturn)) }
{
    match parse_line(alloc, line)? {
        Ok(request) => Ok(Ok(request)),
        Err(_) if ends_in_return(line) => Ok(Err(BadLine::CarriageReturn)),
        Err(bad) => Ok(Err(bad)),
    }
}

/// Why a line ends the run. The text of each says what to change in the line.
///
/// ```text
/// kind simple
/// + 18446744073709551616 ad       // TooLarge: the value is not below 2^64
/// ```
#[derive(Clone, Copy, PartialEq, Eq, Debug, Error)]
pub enum BadLine {
    /// It ends in a carriage return. This comes before any other reason.
    #[error("it ends in a carriage return: end lines in a line feed alone")]
    CarriageReturn,
    /// It is no command.
    #[error("it is none of: kind NAME, + VALUE KEY, build, ? KEY, list, walk CALLS")]
    NoCommand,
    /// No kind has this name.
    #[error("the kind is none of: simple, ignore, hash, ext, auto")]
    UnknownKind,
    /// The value is missing.
    #[error("there is no value: write + VALUE KEY, with one space between")]
    NoValue,
    /// The value has a byte that is no decimal digit.
    #[error("the value is not a decimal number")]
    NoNumber,
    /// The value has more than 20 digits, leading zeros included.
    #[error("the value has more than 20 digits")]
    TooManyDigits,
    /// The value is 2^64 or more.
    #[error("the value is not below 2^64")]
    TooLarge,
    /// A word of a walk is no call.
    #[error("a call is none of: sHH, t, pN, with one space between two")]
    NoCall,
    /// A command before the first `kind` line.
    #[error("no kind is chosen yet: begin with kind NAME")]
    NoKind,
    /// A walk under `auto`.
    #[error("there is no walk under kind auto: choose another kind")]
    WalkUnderAuto,
}
