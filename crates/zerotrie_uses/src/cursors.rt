//! Keys in parts, followed by a cursor.

ghost use Rattle.std.specs.Prelude.{◌≡◌, ◌++◌, ◌∷◌, None, true, false, ℕ, List, IfSome};
ghost use Rattle.zerotrie.specs.Auto.{is_ascii};
ghost use Rattle.zerotrie.specs.Kind.{simple_ascii, perfect_hash};
ghost use Rattle.zerotrie.specs.Maps.{Map, look, Pairs};
ghost use Rattle.zerotrie.specs.Texts.{Means};
ghost use Rattle.zerotrie.specs.Machine.{after_steps};
ghost use Rattle.zerotrie.specs.Places.{ListsAt};

use std::fmt::Write;
use zerotrie::cursor::ZeroTriePerfectHashCursor;
use zerotrie::{TrieStore, ZeroTriePerfectHash, ZeroTrieSimpleAscii, laws};

/// Returns the value of a key that is written to a cursor. Returns `None` if it is not ASCII, as no
/// key is.
pub fn find_written<S: TrieStore>(trie: &ZeroTrieSimpleAscii<S>, name: &str) -> Option<usize>
    ensures ascii { is_ascii name.now ≡ true
        → (m : Map) → Means simple_ascii (S.stored trie.now.store) m
        → result ≡ look simple_ascii m name.now }
    ensures other { is_ascii name.now ≡ false → result ≡ None }
{
    laws::steps_look_ahead();
    trie.get_with_write_fn(|cursor| cursor.write_str(name))
}

/// Makes a step by each byte.
fn go_down(cursor: &mut ZeroTriePerfectHashCursor<'_>, bytes: &[u8])
    ensures { (pairs : Pairs) → ListsAt perfect_hash cursor.old pairs
        → ListsAt perfect_hash cursor.new (after_steps perfect_hash bytes.now pairs) }
{
    for byte in bytes {
        cursor.step(*byte);
    }
}

/// Returns the trie of what the keys have after a prefix: a look-up of a key in it equals that of the
/// prefix and the key together in the whole. It borrows the bytes of the whole, and does not allocate.
///
/// Returns `None` if the prefix ends inside a span, whose rest is no trie of its own. `find_behind`
/// works there too.
pub fn suffixes_of<'a, S: TrieStore>(
    trie: &'a ZeroTriePerfectHash<S>,
    prefix: &[u8],
) -> Option<ZeroTriePerfectHash<&'a [u8]>>
    ensures { IfSome result (λ suffixes. (m : Map) → Means perfect_hash (S.stored trie.now.store) m
        → (n : Map) × Means perfect_hash suffixes.store.now n
        × ((key : List ℕ) → look perfect_hash n key ≡ look perfect_hash m (prefix.now ++ key))) }
{
    laws::steps_look_ahead();
    let mut cursor = trie.cursor();
    go_down(&mut cursor, prefix);
    let suffixes = cursor.into_suffix_trie()?;
    Some(suffixes)
}

/// Returns the value of a prefix and a key together. The prefix may end inside a span.
pub fn find_behind<S: TrieStore>(
    trie: &ZeroTriePerfectHash<S>,
    prefix: &[u8],
    key: &[u8],
) -> Option<usize>
    ensures { (m : Map) → Means perfect_hash (S.stored trie.now.store) m
        → result ≡ look perfect_hash m (prefix.now ++ key.now) }
{
    laws::steps_look_ahead();
    let mut cursor = trie.cursor();
    go_down(&mut cursor, prefix);
    go_down(&mut cursor, key);
    cursor.take_value()
}
