//! String keys.

ghost use Rattle.std.specs.Prelude.{◌≡◌, ℕ, List, refl};
ghost use Rattle.std.specs.String.{string_bytes};
ghost use Rattle.zerotrie_any.specs.Order.{IsByBytes};

use zerotrie_core::TrieKey;

/// A string key, `&str` or `String`, which is ordered by its bytes.
///
/// ```
/// assert_eq!(rt; "ad".key_text(), "ad");
/// ```
pub trait TextKey: TrieKey + Ord {
    ghost text: { Self → List ℕ };

    /// Returns the key as a string. Does not copy or allocate.
    fn key_text(&self) -> &str
        ensures { result.now ≡ text self.now };

    ghost same: { (k : Self) → text k ≡ Self.key k };

    ghost by_bytes: { IsByBytes Self.cmp Self.key };
}

impl TextKey for &str {
    ghost text = { λ k. k.now };

    ghost same = { λ k. refl };

    ghost by_bytes = { λ j k. refl };

    fn key_text(&self) -> &str {
        *self
    }
}

impl TextKey for String {
    ghost text = { λ k. string_bytes k };

    ghost same = { λ k. refl };

    ghost by_bytes = { λ j k. refl };

    fn key_text(&self) -> &str {
        self.as_str()
    }
}
