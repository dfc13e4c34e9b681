//! Reverse look-ups in every trie.

ghost use Rattle.std.specs.Prelude.{◌≡◌, ◌≤◌, ◌⊎◌, length, IfOk};
ghost use Rattle.zerotrie_core.specs.Maps.{Pairs};
ghost use Rattle.zerotrie_core.specs.Texts.{Lists};

use crate::table::KeysByValue;
use std::alloc::{AllocError, Global};
use zerotrie_core::{Trie, by_kind};

/// A trie whose keys can be found by their values: each type of trie, over each store.
///
/// ```
/// let trie = TrieRef { kind: TrieKind::Simple, bytes: b"in\x83to\x84" };
/// let table = trie.keys_by_value(rt.alloc())?;
/// let key = table.first_key_of(rt.alloc(), 4)?.ok_or("no key")?;
/// assert_eq!(rt; key.as_slice(), b"into".as_slice());
/// ```
pub trait Reverse: Trie {
    /// Builds the table that finds the first key that has a value.
    ///
    /// The only error is a failed allocation.
    fn keys_by_value(&self, alloc: Global) -> Result<KeysByValue<'_>, AllocError>
        ensures of { IfOk result (λ t.
            (t.kind ≡ Self.kind self.now) × (t.bytes ≡ Self.bytes self.now)) }
        ensures size { IfOk result (λ t.
            (pairs : Pairs) → Lists (Self.kind self.now) (Self.bytes self.now) pairs
            → (t.size ≡ 0) ⊎ (t.size ≡ length pairs)) }
        ensures most { IfOk result (λ t. t.size ≤ length (Self.bytes self.now)) }
    {
        by_kind!(
            self.trie_kind(),
            KeysByValue::new::<_>(alloc, self.as_bytes())
        )
    }
}

impl<R: Trie> Reverse for R {}
