//! Which keys can be printed in a form.

ghost use Rattle.std.specs.Prelude.{◌≡◌, ℕ, List, true, false, IfOk, IfSome, IfNone};
ghost use Rattle.std.specs.List.{list_all};
ghost use Rattle.zerotrie_queries.specs.Printed.{IsFirstUnprintable, are_printable, can_print, is_raw};

use crate::print::{Form, Style};
use crate::text::is_text;
use std::alloc::{AllocError, Global};
use zerotrie_search::TrieListing;

/// Returns whether a byte is no tab and no line feed.
fn is_raw(byte: u8) -> bool
    ensures { result ≡ is_raw byte }
{
    byte != b'\t' && byte != b'\n'
}

fn are_raw(bytes: &[u8]) -> bool
    ensures { result ≡ list_all is_raw bytes.now }
{
    for byte in bytes {
        if !is_raw(*byte) {
            return false;
        }
    }
    true
}

/// Returns whether a form can print every key.
pub(crate) fn takes_all_keys(form: Form) -> bool
    ensures { result ≡ true → (key : List ℕ) → can_print form key ≡ true }
{
    match form {
        Form::Lines(style) => style != Style::TsvRaw,
        Form::Distances | Form::Count => true,
        Form::Json => false,
    }
}

/// Returns whether a form can print a key.
fn can_print(form: Form, key: &[u8]) -> bool
    ensures { result ≡ can_print form key.now }
{
    match form {
        Form::Lines(Style::TsvRaw) => are_raw(key),
        Form::Lines(Style::Tsv | Style::Csv | Style::JsonLines | Style::Keys | Style::Values)
        | Form::Distances
        | Form::Count => true,
        Form::Json => is_text(key),
    }
}

pub(crate) fn copied(alloc: Global, bytes: &[u8]) -> Result<Vec<u8>, AllocError>
    ensures { IfOk result (λ copy. copy.items ≡ bytes.now) }
{
    let mut copy = Vec::new(alloc);
    copy.extend_from_slice(bytes)?;
    Ok(copy)
}

/// Returns the first of the keys to come that a form can't print, if there is one.
pub(crate) fn first_unprintable_of<P: TrieListing + Drop>(
    alloc: Global,
    form: Form,
    mut pairs: P,
) -> Result<Option<Vec<u8>>, AllocError>
    ensures some { IfOk result (λ key. IfSome key (λ k. (can_print form k.items ≡ false)
        × (P.IsValid pairs → IsFirstUnprintable form (P.left pairs).pairs k.items))) }
    ensures none { IfOk result (λ key. IfNone key (P.IsValid pairs
        → are_printable form (P.left pairs).pairs ≡ true)) }
{
    loop {
        if !pairs.advance()? {
            return Ok(None);
        }
        if !can_print(form, pairs.key()) {
            return Ok(Some(copied(alloc, pairs.key())?));
        }
    }
}
