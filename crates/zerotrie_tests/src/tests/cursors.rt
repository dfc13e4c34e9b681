//! Cursors of the four kinds, walks, and what is written to a cursor.

use super::*;
use std::fmt;
use std::fmt::Write;
use zerotrie::cursor::{AsciiCursor, AsciiProbeResult, ByteProbeResult, HashedCursor};

/// Two keys, one of which begins with the other.
const NESTED: &[u8] = b"abc\x80def\x81";

/// The keys "foo", "bår" and "båzzøø" with values 1, 2 and 3, in a hashed kind.
const SPANS: &[u8] = b"\xC2bf\x0F\xA2\xC3\xA5\xC2rz\x01\x82zz\xA4\xC3\xB8\xC3\xB8\x83oo\x81";

/// Steps over bytes, whether they are there or not.
fn go_down(cursor: &mut AsciiCursor<'_, Simple>, bytes: &[u8]) {
    for byte in bytes {
        cursor.step(*byte);
    }
}

/// Returns whether a cursor takes the value 0 once, is at a key's byte after a step to "d", and
/// nowhere after one to "x".
fn takes_once(cursor: AsciiCursor<'_, Simple>) -> bool {
    let mut cursor = cursor;
    let is_taken = cursor.take_value() == Some(0) && cursor.take_value().is_none();
    cursor.step(b'd');
    let is_there = !cursor.is_empty();
    cursor.step(b'x');
    is_taken && is_there && cursor.is_empty()
}

/// The value of a key in the trie of what comes after some steps.
fn value_after(cursor: AsciiCursor<'_, Simple>, steps: &[u8], key: &[u8]) -> Option<usize> {
    let mut cursor = cursor;
    go_down(&mut cursor, steps);
    cursor.into_suffix_trie().get(key)
}

/// Returns whether a cursor finds no edge of this number, and is nowhere then.
fn is_lost_by_probe(cursor: AsciiCursor<'_, Simple>, index: usize) -> bool {
    let mut cursor = cursor;
    cursor.probe(index).is_none() && cursor.is_empty()
}

#[test]
fn ascii_cursors(rt: HostRuntime) -> Result<(), Fail> {
    let trie = ZeroTrieSimpleAscii::from_bytes(NESTED);
    same(&rt, trie.byte_len(), 8);
    let mut cursor = trie.cursor();
    go_down(&mut cursor, b"abc");
    let again = cursor.clone()?;
    holds(&rt, takes_once(cursor));
    // The copy is a place of its own, and a step passes over its value.
    same(&rt, value_after(again, b"d", b"ef"), Some(1));
    holds(&rt, is_lost_by_probe(trie.cursor(), 1));
    Ok(())
}

#[test]
fn suffix_tries(rt: HostRuntime) {
    let trie = ZeroTrieSimpleAscii::from_bytes(NESTED);
    same(&rt, value_after(trie.cursor(), b"ab", b"c"), Some(0));
    same(
        &rt,
        value_after(trie.into_cursor(), b"ab", b"cdef"),
        Some(1),
    );
}

/// A suffix trie may outlive its cursor, and not its store.
#[test]
fn suffix_tries_outlive_cursors(rt: HostRuntime) -> Result<(), Fail> {
    let store = Vec::from_slice(rt.alloc(), NESTED)?;
    let suffixes = {
        let mut inner = ZeroTrieSimpleAscii::from_bytes(store.as_slice()).into_cursor();
        go_down(&mut inner, b"a");
        inner.into_suffix_trie()
    };
    same(&rt, suffixes.get(b"bc"), Some(0));
    Ok(())
}

/// Letters in either case, and the bytes as they are stored.
#[test]
fn cursors_without_case(rt: HostRuntime) {
    let mixed = ZeroAsciiIgnoreCaseTrie::from_bytes(b"aBc\x80dEf\x81");
    let mut cursor = mixed.cursor();
    same(&rt, cursor.step(b'a'), Some(b'a'));
    same(&rt, cursor.step(b'b'), Some(b'B'));
    let suffixes = cursor.into_suffix_trie();
    same(&rt, suffixes.get(b"c"), Some(0));
    same(&rt, suffixes.get(b"CDEF"), Some(1));
}

/// What a probe finds if there is one edge.
fn alone(byte: u8) -> Option<AsciiProbeResult> {
    Some(AsciiProbeResult {
        byte,
        total_siblings: 1,
    })
}

#[test]
fn writing(rt: HostRuntime) {
    let trie = ZeroTrieSimpleAscii::from_bytes(NESTED);
    let mut cursor = trie.cursor();
    same(&rt, cursor.write_str("abé"), Err(fmt::Error));
    same(&rt, cursor.probe(0), alone(b'c'));
    // A character that is not ASCII steps nothing.
    let mut cursor = trie.cursor();
    same(&rt, cursor.write_char('é'), Err(fmt::Error));
    same(&rt, cursor.write_char('a'), Ok(()));
    same(&rt, cursor.probe(0), alone(b'b'));
}

/// The value at a text that is written to a cursor.
fn value_at(bytes: &'static [u8], text: &str) -> Option<usize> {
    ZeroTrieSimpleAscii::from_bytes(bytes).get_with_write_fn(|cursor| cursor.write_str(text))
}

/// The value at the cursor of another trie, which is put in the place of the one that a text was
/// written to.
fn value_of(bytes: &'static [u8], text: &str, other: &'static [u8]) -> Option<usize> {
    ZeroTrieSimpleAscii::from_bytes(bytes).get_with_write_fn(|cursor| {
        cursor.write_str(text)?;
        *cursor = ZeroTrieSimpleAscii::from_bytes(other).into_cursor();
        Ok(())
    })
}

#[test]
fn writing_closures(rt: HostRuntime) {
    let trie = ZeroTrieSimpleAscii::from_bytes(NESTED);
    same(&rt, value_at(NESTED, "abc"), Some(0));
    same(
        &rt,
        trie.get_with_write_fn(|cursor| write!(cursor, "{}{}", "abc", "def")),
        Some(1),
    );
    let taken = trie.get_with_write_fn(|cursor| {
        cursor.write_str("abc")?;
        cursor.take_value();
        Ok(())
    });
    same(&rt, taken, None);
    same(&rt, trie.get_with_write_fn(|_| Err(fmt::Error)), None);
    same(&rt, value_of(NESTED, "", b"\x85"), Some(5));
}

/// Errors that a closure drops or passes on, and a cursor of no bytes that it leaves.
#[test]
fn careless_closures(rt: HostRuntime) {
    let trie = ZeroTrieSimpleAscii::from_bytes(b"ab\x87");
    let dropped = trie.get_with_write_fn(|cursor| {
        let _ = cursor.write_str("abé");
        Ok(())
    });
    same(&rt, dropped, Some(7));
    same(&rt, value_at(b"ab\x87", "abé"), None);
    same(&rt, value_of(b"ab\x87", "ab", b""), None);
}

/// Returns whether a cursor steps over bytes that are there.
fn goes_down<K: HashedKind>(cursor: &mut HashedCursor<'_, K>, bytes: &[u8]) -> bool {
    for byte in bytes {
        if cursor.step(*byte) != Some(*byte) {
            return false;
        }
    }
    true
}

/// What a copy of a cursor finds at the edge of this number.
fn edge_at<K: HashedKind>(cursor: &HashedCursor<'_, K>, index: usize) -> Option<ByteProbeResult> {
    let mut copy = cursor.clone().ok()?;
    copy.probe(index)
}

/// The value of a key in the trie of what comes after a cursor, unless it is inside a span.
fn value_behind<K: HashedKind>(cursor: HashedCursor<'_, K>, key: &[u8]) -> Option<Option<usize>> {
    Some(cursor.into_suffix_trie()?.get(key))
}

#[test]
fn hashed_cursors(rt: HostRuntime) {
    let trie = ZeroTriePerfectHash::from_bytes(SPANS);
    let mut cursor = trie.cursor();
    holds(&rt, goes_down(&mut cursor, b"b\xC3\xA5"));
    let edge = ByteProbeResult {
        byte: b'z',
        total_siblings: 2,
    };
    same(&rt, edge_at(&cursor, 1), Some(edge));
    same(&rt, value_behind(cursor, b"r"), Some(Some(2)));
}

/// Inside a span nothing has a value, and no trie of its own.
#[test]
fn hashed_cursors_inside_spans(rt: HostRuntime) {
    let trie = ZeroTriePerfectHash::from_bytes(SPANS);
    let mut cursor = trie.cursor();
    holds(&rt, goes_down(&mut cursor, b"b\xC3"));
    same(&rt, cursor.take_value(), None);
    same(&rt, value_behind(cursor, b""), None);
}

#[test]
fn extended_cursors(rt: HostRuntime) {
    let trie = ZeroTrieExtendedCapacity::from_bytes(b"\xA1\xC3\xC2\xA5\xB8\x01\x81\x82");
    let mut cursor = trie.into_cursor();
    holds(&rt, goes_down(&mut cursor, b"\xC3"));
    same(&rt, value_behind(cursor, b"\xA5"), Some(Some(1)));
}

/// Returns whether a walk returned these results.
fn is_walk<E: Drop>(walk: Result<Vec<CursorAnswer>, E>, answers: &[CursorAnswer]) -> bool {
    match walk {
        Ok(given) => given.as_slice() == answers,
        Err(_) => false,
    }
}

fn ascii_walk<K: AsciiKind>(
    alloc: Global,
    bytes: &[u8],
    ops: &[CursorOp],
    answers: &[CursorAnswer],
) -> bool {
    is_walk(
        AsciiTrie::<K, &[u8]>::from_bytes(bytes).walk(alloc, ops),
        answers,
    )
}

fn hashed_walk<K: HashedKind>(
    alloc: Global,
    bytes: &[u8],
    ops: &[CursorOp],
    answers: &[CursorAnswer],
) -> bool {
    is_walk(
        HashedTrie::<K, &[u8]>::from_bytes(bytes).walk(alloc, ops),
        answers,
    )
}

const OPS: &[CursorOp] = &[CursorOp::Step(b'A'), CursorOp::Step(b'B'), CursorOp::Take];

const MISSED: &[CursorAnswer] = &[
    CursorAnswer::Stepped(None),
    CursorAnswer::Stepped(None),
    CursorAnswer::Taken(None),
];

const MET: &[CursorAnswer] = &[
    CursorAnswer::Stepped(Some(b'a')),
    CursorAnswer::Stepped(Some(b'B')),
    CursorAnswer::Taken(Some(5)),
];

/// Each type hands its own bytes and kind to a walk.
#[test]
fn walks(rt: HostRuntime) {
    let alloc = rt.alloc();
    holds(&rt, ascii_walk::<Ignore>(alloc, b"aB\x85", OPS, MET));
    holds(&rt, ascii_walk::<Simple>(alloc, b"aB\x85", OPS, MISSED));
    holds(&rt, hashed_walk::<Hash>(alloc, b"aB\x85", OPS, MISSED));
    holds(&rt, hashed_walk::<Ext>(alloc, b"aB\x85", OPS, MISSED));
}
