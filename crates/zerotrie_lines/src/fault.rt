//! Why an input is no pairs.

ghost use Rattle.std.specs.Prelude.{◌≡◌};
ghost use Rattle.zerotrie_lines.specs.declared.fault.ReadError.{ReadError};
ghost use Rattle.zerotrie_lines.specs.declared.fault.ReadError.TheVariants.{Line, OutOfMemory};

use std::alloc::AllocError;

/// What is wrong with a field that is no value, which is a number below 2^64 of 1 to 20 decimal
/// digits.
#[derive(Clone, Copy, PartialEq, Eq, Debug)]
pub enum ValueFault {
    /// It is empty.
    Empty,
    /// It begins with a sign.
    Sign,
    /// It has a space or a tab.
    Blank,
    /// A carriage return is at its end.
    CarriageReturn,
    /// It begins with `0x`.
    Hexadecimal,
    /// It begins with a digit, and has a dot or an exponent.
    Fraction,
    /// It is more than 20 digits.
    TooLong,
    /// It is digits, and its number is 2^64 or more.
    TooGreat,
    /// It is none of these.
    Other,
}

/// A field that is no value.
#[derive(PartialEq, Eq, Debug, Drop)]
pub struct BadValue {
    /// What is wrong with it.
    pub fault: ValueFault,
    /// The first 40 bytes of it, or all if it has fewer.
    pub front: Vec<u8>,
}

/// What is bad in a line.
#[derive(PartialEq, Eq, Debug, Drop)]
pub enum BadLine {
    /// It is empty.
    Empty,
    /// It has no tab, but something else.
    NoTab,
    /// What is before its tab spells no key.
    Escape,
    /// Its value is none.
    Value(BadValue),
    /// The record has so many fields, and not as many as there are columns.
    Fields(usize, usize),
    /// No column of the header has this name.
    NoColumn(Vec<u8>),
    /// More than one column of the header has this name.
    SameColumns(Vec<u8>),
}

/// Why an input is no pairs.
#[derive(PartialEq, Eq, Debug, Drop)]
pub enum ReadError {
    /// The line, or record of comma-separated fields, with this number is no pair, or no header with
    /// the columns that are named, and why.
    Line(usize, BadLine),
    /// An allocation failed.
    OutOfMemory,
}

impl From<AllocError> for ReadError {
    ghost from_gives = { λ _ e. e ≡ OutOfMemory };

    fn from(_: AllocError) -> Self {
        ReadError::OutOfMemory
    }
}

/// Returns the error of the line with this number.
pub(crate) fn at_line(number: usize, bad: BadLine) -> ReadError
    ensures { result ≡ Line number bad }
{
    ReadError::Line(number, bad)
}
