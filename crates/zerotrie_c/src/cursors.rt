//! Cursors, which the caller keeps as numbers.

ghost use Rattle.std.specs.Prelude.{◌≡◌, ◌↔◌, [], false, IfSome, IfNone, IsTrue};
ghost use Rattle.zerotrie_core.specs.CursorPlaces.{cursor_at, is_in, zeros};
ghost use Rattle.zerotrie_core.specs.Kind.{Kind};
ghost use Rattle.zerotrie_core.specs.Maps.{Pairs};
ghost use Rattle.zerotrie_core.specs.Texts.{Lists};
ghost use Rattle.zerotrie_core.specs.Machine.{after_steps};
ghost use Rattle.zerotrie_core.specs.Places.{ListsAt, IsStep, IsTake, IsProbe, FollowsRun};
ghost use Rattle.zerotrie_c.specs.Numbers.{kind_of};
ghost use Rattle.zerotrie_c.specs.Answers.{told, told_both};

use crate::answers::{tell, tell_edge};
use crate::numbers::kind_of;
use zerotrie_core::{CursorPlace, ZeroTrieWithOptions, by_kind};

/// Returns the cursor at the beginning of a trie, of any kind.
#[unsafe(no_mangle)]
pub extern "C" fn zerotrie_cursor_new(bytes: &[u8]) -> CursorPlace
    ensures start { cursor_at bytes.now result ≡ record { run = []; trie = bytes.now } }
    ensures inside { IsTrue (is_in bytes.now result) }
{
    CursorPlace::new(bytes)
}

/// Follows the edge for this byte, as the kind compares bytes. Returns whether there is one, and
/// then sets `edge` to its byte; otherwise the cursor is empty.
#[unsafe(no_mangle)]
pub extern "C" fn zerotrie_cursor_step(
    kind: u32,
    bytes: &[u8],
    cursor: &mut CursorPlace,
    byte: u8,
    edge: &mut u8,
) -> bool
    ensures known { IfSome (kind_of kind) (λ k. IsStep k (ListsAt k (cursor_at bytes.now cursor.old))
        byte (told result edge.new) (ListsAt k (cursor_at bytes.now cursor.new))) }
    ensures run { IfSome (kind_of kind) (λ k. IfSome (told result edge.new) (λ e.
        FollowsRun k (cursor_at bytes.now cursor.old) e (cursor_at bytes.now cursor.new))) }
    ensures unknown { IfNone (kind_of kind) (result ≡ false) }
    ensures inside { IsTrue (is_in bytes.now cursor.new) }
    ensures empty { result ≡ false → cursor.new ≡ zeros }
    ensures kept { result ≡ false → edge.new ≡ edge.old }
{
    let Some(kind) = kind_of(kind) else {
        *cursor = CursorPlace::nowhere();
        return false;
    };
    match by_kind!(kind, CursorPlace::step::<_>(cursor, bytes, byte)) {
        Some(found) => {
            *edge = found;
            true
        }
        None => false,
    }
}

/// Takes the value at the cursor. Returns whether there is one, and then sets `value`; otherwise
/// nothing changes.
#[unsafe(no_mangle)]
pub extern "C" fn zerotrie_cursor_take_value(
    bytes: &[u8],
    cursor: &mut CursorPlace,
    value: &mut usize,
) -> bool
    ensures taken { (kind : Kind) → IsTake kind (ListsAt kind (cursor_at bytes.now cursor.old))
        (told result value.new) (ListsAt kind (cursor_at bytes.now cursor.new)) }
    ensures run { (cursor_at bytes.now cursor.new).run ≡ (cursor_at bytes.now cursor.old).run }
    ensures inside { IsTrue result → IsTrue (is_in bytes.now cursor.new) }
    ensures none { result ≡ false → (cursor.new ≡ cursor.old) × (value.new ≡ value.old) }
{
    tell(cursor.take_value(bytes), value)
}

/// Follows the edge with this number. Returns whether there is one, and then sets `edge` to its
/// byte and `siblings` to the number of edges; otherwise the cursor is empty.
#[unsafe(no_mangle)]
pub extern "C" fn zerotrie_cursor_probe(
    kind: u32,
    bytes: &[u8],
    cursor: &mut CursorPlace,
    index: usize,
    edge: &mut u8,
    siblings: &mut u16,
) -> bool
    ensures known { IfSome (kind_of kind) (λ k. IsProbe (ListsAt k (cursor_at bytes.now cursor.old))
        index (told_both result edge.new siblings.new) (ListsAt k (cursor_at bytes.now cursor.new))) }
    ensures run { IfSome (kind_of kind) (λ k. IfSome (told result edge.new) (λ e.
        FollowsRun k (cursor_at bytes.now cursor.old) e (cursor_at bytes.now cursor.new))) }
    ensures unknown { IfNone (kind_of kind) (result ≡ false) }
    ensures inside { IsTrue (is_in bytes.now cursor.new) }
    ensures empty { result ≡ false → cursor.new ≡ zeros }
    ensures kept { result ≡ false → (edge.new ≡ edge.old) × (siblings.new ≡ siblings.old) }
{
    let Some(kind) = kind_of(kind) else {
        *cursor = CursorPlace::nowhere();
        return false;
    };
    let found = by_kind!(kind, CursorPlace::probe::<_>(cursor, bytes, index));
    tell_edge(found, edge, siblings)
}

/// Returns the cursor after a step by each byte of the prefix, in the kind `K`.
fn behind_prefix<K: ZeroTrieWithOptions>(bytes: &[u8], prefix: &[u8]) -> CursorPlace
    ensures lists { (pairs : Pairs) → Lists K.kind bytes.now pairs
        → ListsAt K.kind (cursor_at bytes.now result) (after_steps K.kind prefix.now pairs) }
    ensures inside { IsTrue (is_in bytes.now result) }
{
    let mut here = CursorPlace::new(bytes);
    for byte in prefix {
        let _edge = here.step::<K>(bytes, *byte);
    }
    here
}

/// Returns the cursor after a prefix, as a step by each of its bytes would leave it. If no key
/// begins with the prefix, its numbers are 0.
#[unsafe(no_mangle)]
pub extern "C" fn zerotrie_with_prefix(kind: u32, bytes: &[u8], prefix: &[u8]) -> CursorPlace
    ensures known { IfSome (kind_of kind) (λ k. (pairs : Pairs) → Lists k bytes.now pairs
        → ListsAt k (cursor_at bytes.now result) (after_steps k prefix.now pairs)
        × (result ≡ zeros ↔ (after_steps k prefix.now pairs ≡ []))) }
    ensures unknown { IfNone (kind_of kind) (result ≡ zeros) }
    ensures inside { IsTrue (is_in bytes.now result) }
{
    let here = match kind_of(kind) {
        Some(kind) => by_kind!(kind, behind_prefix::<_>(bytes, prefix)),
        None => CursorPlace::nowhere(),
    };
    if here.cursor(bytes).is_empty() {
        CursorPlace::nowhere()
    } else {
        here
    }
}
