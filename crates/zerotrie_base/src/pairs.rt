//! Pairs of a key and a value.

ghost use Rattle.std.specs.Prelude.{◌≡◌, ℕ, List, map, nat_lt};
ghost use Rattle.std.specs.List.{list_all};

use crate::store::TrieKey;

/// A pair of a key and a value, as a build takes it.
///
/// ```
/// assert_eq!(rt; ("ad", 22).pair_key(), b"ad".as_slice());
/// ```
///
/// `pair_key` returns the same bytes at each call.
pub trait TriePair {
    ghost pair: { Self → List ℕ × ℕ };

    /// Returns the bytes of the key. Does not allocate or copy.
    fn pair_key(&self) -> &[u8]
        ensures { result.now ≡ (pair self.now).0 };
}

impl<Key: TrieKey> TriePair for (Key, usize) {
    ghost pair = { λ p. (Key.key p.0, p.1) };

    fn pair_key(&self) -> &[u8] {
        self.0.key_bytes()
    }
}

/// Returns whether all keys are ASCII.
///
/// ```
/// assert!(rt; are_ascii(&[("ad", 22), ("adef", 33)]));
/// assert!(rt; !are_ascii(&[("å", 1)]));
/// ```
pub fn are_ascii<P: TriePair>(pairs: &[P]) -> bool
    ensures { result ≡ list_all (λ e. list_all (λ b. nat_lt b 128) e.0) (map P.pair pairs.now) }
{
    pairs.iter().all(|pair| pair.pair_key().is_ascii())
}
