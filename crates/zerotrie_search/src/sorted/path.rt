//! A path down a trie: a key, and the place before each of its bytes.

ghost use Rattle.std.specs.Prelude.{◌≡◌, ◌∷◌, ◌++◌, [], IfOk};
ghost use Rattle.zerotrie_base.specs.Kind.{kind_with};
ghost use Rattle.zerotrie_search.specs.Paths.{IsPathIn, IsFollowed};

use crate::sorted::edges::step_exact;
use std::alloc::{AllocError, Allocator};
use zerotrie_core::{CursorPlace, ZeroTrieBuilderOptions};

/// Adds a byte to a path, and the place before it.
fn push<A: Allocator>(
    key: &mut Vec<u8, A>,
    places: &mut Vec<CursorPlace, A>,
    here: &mut CursorPlace,
    byte: u8,
    after: CursorPlace,
) -> Result<(), AllocError>
    ensures { IfOk result (λ _. (key.new.items ≡ key.old.items ++ byte ∷ [])
        × (places.new.items ≡ places.old.items ++ here.old ∷ []) × (here.new ≡ after)) }
{
    key.push(byte)?;
    places.push(*here)?;
    *here = after;
    Ok(())
}

/// Goes down along a key as far as the trie has its bytes. Returns the first byte that it does not
/// have, or `None` if it has all.
pub(crate) fn follow<A: Allocator>(
    options: ZeroTrieBuilderOptions,
    bytes: &[u8],
    sought: &[u8],
    key: &mut Vec<u8, A>,
    places: &mut Vec<CursorPlace, A>,
    here: &mut CursorPlace,
) -> Result<Option<usize>, AllocError>
    requires path { IsPathIn (kind_with options) bytes.now key.old.items places.old.items here.old }
    requires start { key.old.items ≡ [] }
    ensures path { IfOk result (λ _. IsPathIn (kind_with options) bytes.now
        key.new.items places.new.items here.new) }
    ensures follows { IfOk result (λ next. IsFollowed (kind_with options) bytes.now sought.now
        key.new.items next) }
{
    for byte in sought {
        let Some(after) = step_exact(options, bytes, *here, *byte) else {
            return Ok(Some(*byte as usize));
        };
        push(key, places, here, *byte, after)?;
    }
    Ok(None)
}
