//! The keys that some text begins with.

ghost use Rattle.std.specs.Prelude.{◌≡◌, ◌≤◌, ◌<◌, length, IfSome, true, false};
ghost use Rattle.std.specs.Iterator.{at_most};
ghost use Rattle.zerotrie_base.specs.Kind.{Kind, kind_with};
ghost use Rattle.zerotrie_base.specs.Maps.{Map};
ghost use Rattle.zerotrie_core.specs.Places.{ListsAt, IsStep, IsTake};
ghost use Rattle.zerotrie_base.specs.Texts.{Means};
ghost use Rattle.zerotrie_core.specs.Prefixes.{IsLongestPrefix, along, at_front, LeavesAt, NextFront};
ghost use Rattle.zerotrie_core.specs.cursor.Fronts.{noted};

use crate::laws::steps_look_ahead;
use crate::span_cursor::SpanCursor;
use std::marker::Model;
use zerotrie_base::{ZeroTrieBuilderOptions, ZeroTrieWithOptions, by_kind};

/// Returns the longest key so far, once a value was looked for after `len` bytes.
#[inline(always)]
fn noted(
    taken: Option<usize>,
    len: usize,
    longest: Option<(usize, usize)>,
) -> Option<(usize, usize)>
    ensures { result ≡ noted taken len longest }
{
    match taken {
        Some(value) => Some((len, value)),
        None => longest,
    }
}

/// Returns the length and the value of the longest key that `text` begins with, or `None` if it
/// begins with no key.
///
/// ```
/// let bytes = b"a\x81bc\x82";                 // the keys "a" with value 1 and "abc" with value 2
/// assert_eq!(rt; longest_prefix::<Simple>(bytes, b"abcd"), Some((3, 2)));
/// assert_eq!(rt; longest_prefix::<Simple>(bytes, b"abd"), Some((1, 1)));
/// assert_eq!(rt; longest_prefix::<Simple>(bytes, b"b"), None);
/// ```
///
/// Reads `text` once, up to the first byte that continues no key, and does not allocate. On
/// malformed bytes the result is unspecified; it never panics or reads outside them, and the length
/// is at most that of `text`.
pub fn longest_prefix<K: ZeroTrieWithOptions>(bytes: &[u8], text: &[u8]) -> Option<(usize, usize)>
    ensures longest { (m : Map) → Means K.kind bytes.now m
        → IsLongestPrefix K.kind m text.now result }
    ensures within { IfSome result (λ r. r.0 ≤ length text.now) }
{
    steps_look_ahead();
    let mut cursor = SpanCursor::new(bytes);
    let mut longest = noted(cursor.take_value(), 0, None);
    for (index, byte) in text.iter().enumerate() {
        if cursor.step::<K>(*byte).is_none() {
            return longest;
        }
        longest = noted(cursor.take_value(), index + 1, longest);
    }
    longest
}

#[inline]
fn step_of(options: ZeroTrieBuilderOptions, cursor: &mut SpanCursor<'_>, byte: u8) -> Option<u8>
    ensures { let kind = kind_with options in
        IsStep kind (ListsAt kind cursor.old) byte result (ListsAt kind cursor.new) }
{
    by_kind!(options.kind(), SpanCursor::step::<_>(cursor, byte))
}

/// Takes the value at a cursor, unless it was looked for before.
#[inline]
fn value_here(cursor: &mut SpanCursor<'_>, looked: &mut bool) -> Option<usize>
    ensures take { (kind : Kind) → IsTake kind
        (LeavesAt kind cursor.old looked.old) result (ListsAt kind cursor.new) }
    ensures looked { looked.new ≡ true }
    ensures first { IfSome result (λ _. looked.old ≡ false) }
{
    if *looked {
        return None;
    }
    *looked = true;
    cursor.take_value()
}

/// Follows the text to the next value.
fn next_front(
    options: ZeroTrieBuilderOptions,
    cursor: &mut SpanCursor<'_>,
    text: &[u8],
    len: &mut usize,
    looked: &mut bool,
) -> Option<(usize, usize)>
    requires { len.old ≤ length text.now }
    ensures inside { len.new ≤ length text.now }
    ensures next { NextFront (along (kind_with options) cursor.old text.now len.old looked.old)
        result
        (along (kind_with options) cursor.new text.now len.new looked.new) }
    ensures less { IfSome result (λ _. (len.old ≤ len.new) × (looked.new ≡ true)
        × (looked.old ≡ true → len.old < len.new)) }
{
    loop {
        if let Some(value) = value_here(cursor, looked) {
            return Some((*len, value));
        }
        let byte = text.get(*len)?;
        step_of(options, cursor, *byte)?;
        *len += 1;
        *looked = false;
    }
}

/// An iterator over the keys that `text` begins with, the shortest first: the length of each and
/// its value.
///
/// ```
/// let bytes = b"a\x81bc\x82";                 // the keys "a" with value 1 and "abc" with value 2
/// let mut keys = CommonPrefixes::new::<Simple>(bytes, b"abcd");
/// assert_eq!(rt; keys.next(), Some((1, 1)));
/// assert_eq!(rt; keys.next(), Some((3, 2)));
/// assert_eq!(rt; keys.next(), None);
/// ```
///
/// Reads `text` once, up to the first byte that continues no key, and does not allocate. On
/// malformed bytes the result is unspecified; it never panics or reads outside them, and each
/// length is at most that of `text`.
#[derive(Clone, Debug, Drop)]
pub struct CommonPrefixes<'a, 't> {
    options: ZeroTrieBuilderOptions,
    cursor: SpanCursor<'a>,
    text: &'t [u8],
    len: usize,
    looked: bool,
}

impl<'a, 't> Model for CommonPrefixes<'a, 't> {
    ghost use Rattle.std.specs.Prelude.{◌≤◌, length};
    ghost use Rattle.zerotrie_base.specs.Kind.{kind_with};
    ghost use Rattle.zerotrie_core.specs.Prefixes.{Along};

    ghost Value = { Along };

    ghost view = { λ s. record {
      kind = kind_with s.options;
      place = s.cursor;
      text = s.text.now;
      len = s.len;
      looked = s.looked;
    } };

    ghost invariant = { λ s. s.len ≤ length s.text.now };
}

impl<'a, 't> CommonPrefixes<'a, 't> {
    /// Returns an iterator over the keys of a trie that `text` begins with.
    pub fn new<K: ZeroTrieWithOptions>(bytes: &'a [u8], text: &'t [u8]) -> Self
        ensures { result ≡ at_front K.kind bytes.now text.now }
    {
        CommonPrefixes {
            options: ZeroTrieBuilderOptions::of::<K>(),
            cursor: SpanCursor::new(bytes),
            text,
            len: 0,
            looked: false,
        }
    }
}

impl<'a, 't> Iterator for CommonPrefixes<'a, 't> {
    type Item = (usize, usize);

    ghost use Rattle.zerotrie_core.specs.Prefixes.{NextFront, most_left};

    ghost next_gives = { NextFront };

    ghost remaining = { λ s. at_most (most_left s) };

    fn next(&mut self) -> Option<(usize, usize)> {
        next_front(
            self.options,
            &mut self.cursor,
            self.text,
            &mut self.len,
            &mut self.looked,
        )
    }
}
