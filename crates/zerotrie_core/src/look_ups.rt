//! Many look-ups in one trie.
//!
//! All keys begin at the first node, which usually is the largest branch. So the target of each
//! first byte is found once, and later keys with this byte begin there.

ghost use Rattle.std.specs.Prelude.{◌≡◌, IfSome};
ghost use Rattle.zerotrie_base.specs.Maps.{Map, look};
ghost use Rattle.zerotrie_base.specs.Texts.{Means};
ghost use Rattle.zerotrie_core.specs.reader.Starts.{AnswersAs, LeadsTo};

use crate::laws::steps_look_ahead;
use crate::reader::get;
use crate::span_cursor::SpanCursor;
use std::marker::{Model, PhantomData};
use zerotrie_base::ZeroTrieWithOptions;

/// Look-ups of many keys in one trie, of the kind `K`.
///
/// ```
/// let bytes = b"\xC2ab\x01\x81c\x82";          // the keys "a" with value 1 and "bc" with value 2
/// let mut trie = LookUps::<Simple>::new(bytes);
/// assert_eq!(rt; trie.get(b"a"), Some(1));
/// assert_eq!(rt; trie.get(b"bc"), Some(2));
/// assert_eq!(rt; trie.get(b"b"), None);
/// ```
///
/// It keeps the target of each first byte that a key began with, in an array of 4 KB, and does not
/// allocate. From some dozens of keys on it is faster than `get`.
#[derive(Drop)]
pub struct LookUps<'a, K: ZeroTrieWithOptions> {
    bytes: &'a [u8],
    targets: [&'a [u8]; 256],
    kind: PhantomData<K>,
}

impl<'a, K: ZeroTrieWithOptions> Model for LookUps<'a, K> {
    ghost use Rattle.std.specs.Prelude.{List, ℕ};
    ghost use Rattle.zerotrie_core.specs.reader.Starts.{AreTargets};

    ghost Value = { List ℕ };

    ghost view = { λ s. s.bytes.now };

    ghost invariant = { λ s. AreTargets K.kind s.bytes.now s.targets };
}

/// Returns the trie after a first byte: empty if no key begins with it, `None` inside a span.
#[inline(never)]
fn target_of<K: ZeroTrieWithOptions>(bytes: &[u8], byte: u8) -> Option<&[u8]>
    ensures { IfSome result (λ target. LeadsTo K.kind bytes.now byte target.now) }
{
    steps_look_ahead();
    let mut cursor = SpanCursor::new(bytes);
    cursor.step::<K>(byte);
    cursor.rest()
}

impl<'a, K: ZeroTrieWithOptions> LookUps<'a, K> {
    /// Creates look-ups in the trie of these bytes.
    #[inline(always)]
    pub fn new(bytes: &'a [u8]) -> Self
        ensures { result ≡ bytes.now }
    {
        let (nothing, _) = bytes.split_at(0);
        LookUps {
            bytes,
            targets: [nothing; 256],
            kind: PhantomData,
        }
    }

    /// Returns the trie after a first byte, and keeps it unless it is empty.
    #[inline(always)]
    fn target(&mut self, byte: u8) -> Option<&'a [u8]>
        ensures some { IfSome result (λ target. LeadsTo K.kind self.old byte target.now) }
        ensures kept { self.new ≡ self.old }
    {
        let known = self.targets[byte as usize];
        if !known.is_empty() {
            return Some(known);
        }
        let target = target_of::<K>(self.bytes, byte)?;
        self.targets[byte as usize] = target;
        Some(target)
    }

    /// Returns the bytes in which the look-up of a key begins, and the rest of the key there.
    #[inline(always)]
    fn start<'k>(&mut self, key: &'k [u8]) -> (&'a [u8], &'k [u8])
        ensures start { AnswersAs K.kind self.old key.now result.0.now result.1.now }
        ensures kept { self.new ≡ self.old }
    {
        let Some((byte, left)) = key.split_first() else {
            return (self.bytes, key);
        };
        if let Some(target) = self.target(*byte) {
            return (target, left);
        }
        (self.bytes, key)
    }

    /// Returns the value of a key, or `None` if the trie does not have it.
    ///
    /// On malformed bytes the result is unspecified. It does not allocate.
    #[inline(always)]
    pub fn get(&mut self, key: &[u8]) -> Option<usize>
        ensures value { (m : Map) → Means K.kind self.old m → result ≡ look K.kind m key.now }
        ensures kept { self.new ≡ self.old }
    {
        let (trie, left) = self.start(key);
        get::<K>(trie, left)
    }
}
