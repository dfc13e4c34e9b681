//! What is wrong with a field that is no value.

ghost use Rattle.std.specs.Prelude.{◌≡◌, ◌≢◌, ℕ, [], take, true, false, IfOk};
ghost use Rattle.zerotrie_lines.specs.Numbers.{IsNumber};
ghost use Rattle.zerotrie_lines.specs.Faults.{has_sign, has_blank, has_return, is_hexadecimal, is_digits, is_of_float, is_fraction, IsFault, IsBadValue};

use crate::fault::{BadValue, ValueFault};
use std::alloc::{AllocError, Global};

/// How many bytes of a field an error has.
const SHOWN: usize = 40;

/// Returns whether a field begins with a sign.
fn has_sign(field: &[u8]) -> bool
    ensures { result ≡ has_sign field.now }
{
    match field {
        [first, ..] => *first == b'+' || *first == b'-',
        [] => false,
    }
}

/// Returns whether a field has a space or a tab.
fn has_blank(field: &[u8]) -> bool
    ensures { result ≡ has_blank field.now }
{
    for byte in field {
        if *byte == b' ' || *byte == b'\t' {
            return true;
        }
    }
    false
}

/// Returns whether a field ends in a carriage return.
fn has_return(field: &[u8]) -> bool
    ensures { result ≡ has_return field.now }
{
    match field.split_last() {
        Some((last, _)) => *last == b'\r',
        None => false,
    }
}

/// Returns whether a field begins with `0x`.
fn is_hexadecimal(field: &[u8]) -> bool
    ensures { result ≡ is_hexadecimal field.now }
{
    match field {
        [zero, letter, ..] => *zero == b'0' && (*letter == b'x' || *letter == b'X'),
        _ => false,
    }
}

/// Returns whether a field is digits.
fn is_digits(field: &[u8]) -> bool
    ensures { result ≡ is_digits field.now }
{
    for byte in field {
        if !byte.is_ascii_digit() {
            return false;
        }
    }
    true
}

/// Returns whether a byte is a digit, a dot, an `e` or a sign.
fn is_of_float(byte: u8) -> bool
    ensures { result ≡ is_of_float byte }
{
    byte.is_ascii_digit()
        || byte == b'.'
        || byte == b'e'
        || byte == b'E'
        || byte == b'+'
        || byte == b'-'
}

/// Returns whether a field begins with a digit, and all of it may be in a fraction.
fn is_fraction(field: &[u8]) -> bool
    ensures { result ≡ is_fraction field.now }
{
    let [first, rest @ ..] = field else {
        return false;
    };
    if !first.is_ascii_digit() {
        return false;
    }
    for byte in rest {
        if !is_of_float(*byte) {
            return false;
        }
    }
    true
}

/// Returns what is wrong with a field that is neither empty nor digits.
fn form_fault(field: &[u8]) -> ValueFault
    requires some { field.now ≢ [] }
    requires other { is_digits field.now ≡ false }
    ensures { IsFault field.now result }
{
    if has_sign(field) {
        ValueFault::Sign
    } else if has_blank(field) {
        ValueFault::Blank
    } else if has_return(field) {
        ValueFault::CarriageReturn
    } else if is_hexadecimal(field) {
        ValueFault::Hexadecimal
    } else if is_fraction(field) {
        ValueFault::Fraction
    } else {
        ValueFault::Other
    }
}

/// Returns what is wrong with a field that is no number.
fn fault_of(field: &[u8]) -> ValueFault
    requires { (value : ℕ) → IsNumber field.now value → ⊥ }
    ensures { IsFault field.now result }
{
    if field.is_empty() {
        return ValueFault::Empty;
    }
    if !is_digits(field) {
        return form_fault(field);
    }
    if field.len() > 20 {
        ValueFault::TooLong
    } else {
        ValueFault::TooGreat
    }
}

/// Returns the first bytes of a field.
fn front_of(field: &[u8]) -> &[u8]
    ensures { result.now ≡ take 40 field.now }
{
    if field.len() <= SHOWN {
        return field;
    }
    let (front, _) = field.split_at(SHOWN);
    front
}

/// Returns what is wrong with a field that is no number, with its first bytes.
pub(crate) fn bad_value(alloc: Global, field: &[u8]) -> Result<BadValue, AllocError>
    requires { (value : ℕ) → IsNumber field.now value → ⊥ }
    ensures { IfOk result (IsBadValue field.now) }
{
    Ok(BadValue {
        fault: fault_of(field),
        front: Vec::from_slice(alloc, front_of(field))?,
    })
}
