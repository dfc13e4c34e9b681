//! The edges of a place in the order of bytes.

ghost use Rattle.std.specs.Prelude.{◌≡◌, ◌+◌, ◌<◌, ◌↔◌, ℕ, List, IsTrue, length, slice_index};
ghost use Rattle.zerotrie_base.specs.Kind.{Kind, kind_with};
ghost use Rattle.zerotrie_base.specs.Maps.{Pairs, residual};
ghost use Rattle.zerotrie_base.specs.Cursors.{met};
ghost use Rattle.zerotrie_core.specs.Places.{ListsAt};
ghost use Rattle.zerotrie_core.specs.CursorPlaces.{cursor_at};
ghost use Rattle.zerotrie_search.specs.Lasts.{IsUnder, IsGreatest};
ghost use Rattle.zerotrie_search.specs.Paths.{IsExact};

use zerotrie_core::laws::steps_answer_stored_bytes;
use zerotrie_core::{CursorPlace, ZeroTrieBuilderOptions, ZeroTrieWithOptions, by_kind};

/// Returns whether an edge is below a limit, if there is one.
fn is_under(limit: Option<usize>, byte: u8) -> bool
    ensures { IsTrue result ↔ IsUnder limit byte }
{
    match limit {
        None => true,
        Some(limit) => (byte as usize) < limit,
    }
}

/// Returns the greater of two edges, of those that are below a limit.
fn greater(
    limit: Option<usize>,
    found: Option<(u8, CursorPlace)>,
    byte: u8,
    after: CursorPlace,
) -> Option<(u8, CursorPlace)>
    ensures { (kind : Kind) (bytes : List ℕ) (pairs : Pairs) (i : ℕ)
        → IsGreatest kind bytes pairs i limit found
        → i < length (met pairs) → slice_index (met pairs) i ≡ byte
        → ListsAt kind (cursor_at bytes after) (residual byte pairs)
        → IsGreatest kind bytes pairs (i + 1) limit result }
{
    if !is_under(limit, byte) {
        return found;
    }
    match found {
        Some((greatest, _after)) if byte <= greatest => found,
        _ => Some((byte, after)),
    }
}

/// Returns the greatest edge that is below a limit, and the place after it.
fn greatest_under<K: ZeroTrieWithOptions>(
    bytes: &[u8],
    place: CursorPlace,
    limit: Option<usize>,
) -> Option<(u8, CursorPlace)>
    ensures { (pairs : Pairs) → ListsAt K.kind (cursor_at bytes.now place) pairs
        → IsGreatest K.kind bytes.now pairs (length (met pairs)) limit result }
{
    let mut first = place;
    let edge = first.probe::<K>(bytes, 0)?;
    let mut found = greater(limit, None, edge.byte, first);
    for index in 1..edge.total_siblings as usize {
        let mut after = place;
        let Some(edge) = after.probe::<K>(bytes, index) else {
            return found;
        };
        found = greater(limit, found, edge.byte, after);
    }
    found
}

/// Calls `greatest_under` for the kind that the options name.
pub(crate) fn edge_under(
    options: ZeroTrieBuilderOptions,
    bytes: &[u8],
    place: CursorPlace,
    limit: Option<usize>,
) -> Option<(u8, CursorPlace)>
    ensures { (pairs : Pairs) → ListsAt (kind_with options) (cursor_at bytes.now place) pairs
        → IsGreatest (kind_with options) bytes.now pairs (length (met pairs)) limit result }
{
    by_kind!(options.kind(), greatest_under::<_>(bytes, place, limit))
}

/// Returns the place after an edge of just this byte.
fn exact<K: ZeroTrieWithOptions>(bytes: &[u8], place: CursorPlace, byte: u8) -> Option<CursorPlace>
    ensures { (pairs : Pairs) → ListsAt K.kind (cursor_at bytes.now place) pairs
        → IsExact K.kind bytes.now pairs byte result }
{
    steps_answer_stored_bytes();
    let mut after = place;
    let Some(edge) = after.step::<K>(bytes, byte) else {
        return None;
    };
    if edge == byte { Some(after) } else { None }
}

/// Calls `exact` for the kind that the options name.
pub(crate) fn step_exact(
    options: ZeroTrieBuilderOptions,
    bytes: &[u8],
    place: CursorPlace,
    byte: u8,
) -> Option<CursorPlace>
    ensures { (pairs : Pairs) → ListsAt (kind_with options) (cursor_at bytes.now place) pairs
        → IsExact (kind_with options) bytes.now pairs byte result }
{
    by_kind!(options.kind(), exact::<_>(bytes, place, byte))
}
