//! A trie of any type, and its plain form.

ghost use Rattle.std.specs.Prelude.{◌≡◌, ◌≤◌, ◌↔◌, ℕ, All, List, length, IsTrue, IfErr, IfOk, IfSome, None};
ghost use Rattle.std.specs.FinMap.{len};
ghost use Rattle.std.specs.Option.{is_some, option_map};
ghost use Rattle.zerotrie_base.specs.Kind.{Kind};
ghost use Rattle.zerotrie_base.specs.Kinds.{kind_of};
ghost use Rattle.zerotrie_base.specs.Maps.{Map, Pairs, look, beginning};
ghost use Rattle.zerotrie_base.specs.Texts.{Means, Lists};
ghost use Rattle.zerotrie_core.specs.Borders.{IsLongestPrefixAt};
ghost use Rattle.zerotrie_core.specs.Faults.{IsFirstFault};
ghost use Rattle.zerotrie_core.specs.Listings.{to_come};
ghost use Rattle.zerotrie_core.specs.Prefixes.{IsLongestPrefix, at_front};
ghost use Rattle.zerotrie_core.specs.Skips.{IsGrouped};
ghost use Rattle.zerotrie_core.specs.Values.{first_key_of};
ghost use Rattle.zerotrie_core.specs.walk.Seen.{LiesIn};
ghost use Rattle.zerotrie_core.specs.walk.Texts.{text_visits};
ghost use Rattle.zerotrie_core.specs.walk.Visits.{nodes_of};
ghost use Rattle.zerotrie_core.specs.WellFormed.{IsWellFormed};
ghost use Rattle.zerotrie_core.specs.declared.listing.ListError.TheVariants.{OutOfMemory};

use crate::borders::longest_prefix_at;
use crate::faults::{Fault, first_fault};
use crate::listing::ListError;
use crate::prefixes::{CommonPrefixes, longest_prefix};
use crate::reader::get;
use crate::stream::ZeroTrieStream;
use crate::values::{ZeroTrieValues, first_key_of};
use crate::walk::{Nodes, count_pairs};
use crate::well_formed::is_well_formed;
use std::alloc::{AllocError, Global};
use zerotrie_base::{TrieKind, by_kind};

/// A trie of any type: the bytes of a trie, and its kind.
///
/// ```
/// let trie = TrieRef { kind: TrieKind::Simple, bytes: b"in\x83to\x84" };
/// assert_eq!(rt; trie.longest_prefix(b"intro"), Some((2, 3)));
/// assert_eq!(rt; trie.count(), 2);
/// ```
///
/// On valid bytes, such as those of every build, each call returns the result for their map. On
/// malformed bytes results are unspecified; no call panics or reads outside them.
pub trait Trie {
    // The kind of the trie.
    ghost kind: { Self → Kind };

    // The bytes of the trie.
    ghost bytes: { Self → List ℕ };

    /// Returns the kind of the trie.
    fn trie_kind(&self) -> TrieKind
        ensures { kind_of result ≡ kind self.now };

    /// Returns the bytes of the trie.
    fn as_bytes(&self) -> &[u8]
        ensures { result.now ≡ bytes self.now };

    /// Returns the value of the key, or `None` if the trie does not have it. Does not allocate.
    #[inline(always)]
    fn get(&self, key: &[u8]) -> Option<usize>
        ensures { (m : Map) → Means (kind self.now) (bytes self.now) m
            → result ≡ look (kind self.now) m key.now }
    {
        by_kind!(self.trie_kind(), get::<_>(self.as_bytes(), key))
    }

    /// Returns the value of a `str` key, as `get` does for its bytes.
    ///
    /// ```
    /// let trie = TrieRef { kind: TrieKind::Simple, bytes: b"abc\x85" };
    /// assert_eq!(rt; trie.get_str("abc"), Some(5));
    /// ```
    #[inline(always)]
    fn get_str(&self, key: &str) -> Option<usize>
        ensures { (m : Map) → Means (kind self.now) (bytes self.now) m
            → result ≡ look (kind self.now) m key.now }
    {
        self.get(key.as_bytes())
    }

    /// Returns whether the trie has the key. Does not allocate.
    ///
    /// ```
    /// let trie = TrieRef { kind: TrieKind::Simple, bytes: b"abc\x85" };
    /// assert!(rt; trie.contains_key(b"abc"));
    /// assert!(rt; !trie.contains_key(b"ab"));
    /// ```
    #[inline(always)]
    fn contains_key(&self, key: &[u8]) -> bool
        ensures { (m : Map) → Means (kind self.now) (bytes self.now) m
            → result ≡ is_some (look (kind self.now) m key.now) }
    {
        self.get(key).is_some()
    }

    /// Returns the length in bytes and the value of the longest key that `text` begins with, or
    /// `None` if there is none.
    ///
    /// ```
    /// let trie = TrieRef { kind: TrieKind::Simple, bytes: b"en\x81-Latn\x82" };
    /// assert_eq!(rt; trie.longest_prefix(b"en-Latn-US"), Some((7, 2)));
    /// assert_eq!(rt; trie.longest_prefix(b"de"), None);
    /// ```
    ///
    /// Reads `text` once, up to the first byte that no key has there. Does not allocate.
    #[inline]
    fn longest_prefix(&self, text: &[u8]) -> Option<(usize, usize)>
        ensures longest { (m : Map) → Means (kind self.now) (bytes self.now) m
            → IsLongestPrefix (kind self.now) m text.now result }
        ensures within { IfSome result (λ r. r.0 ≤ length text.now) }
    {
        by_kind!(self.trie_kind(), longest_prefix::<_>(self.as_bytes(), text))
    }

    /// Returns the length in bytes and the value of the longest key that `text` begins with and
    /// that ends at a border of `text`, or `None` if there is none. A border is the end of `text`,
    /// or a place with one of the delimiters next. The empty key always counts.
    ///
    /// ```
    /// let trie = TrieRef { kind: TrieKind::Simple, bytes: b"en\x81-Latn\x82" };
    /// assert_eq!(rt; trie.longest_prefix_at(b"en-Latn-US", b"-_"), Some((7, 2)));
    /// assert_eq!(rt; trie.longest_prefix_at(b"en_GB", b"-_"), Some((2, 1)));
    /// assert_eq!(rt; trie.longest_prefix_at(b"english", b"-_"), None);
    /// ```
    ///
    /// Reads `text` once, up to the first byte that no key has there. Does not allocate.
    #[inline]
    fn longest_prefix_at(&self, text: &[u8], delimiters: &[u8]) -> Option<(usize, usize)>
        ensures longest { (m : Map) → Means (kind self.now) (bytes self.now) m
            → IsLongestPrefixAt (kind self.now) m delimiters.now text.now result }
        ensures within { IfSome result (λ r. r.0 ≤ length text.now) }
    {
        by_kind!(
            self.trie_kind(),
            longest_prefix_at::<_>(self.as_bytes(), text, delimiters)
        )
    }

    /// Returns an iterator over the keys that `text` begins with, the shortest first: the length in
    /// bytes and the value of each.
    ///
    /// ```
    /// let trie = TrieRef { kind: TrieKind::Simple, bytes: b"en\x81-Latn\x82" };
    /// let mut keys = trie.common_prefixes(b"en-Latn-US");
    /// assert_eq!(rt; keys.next(), Some((2, 1)));
    /// assert_eq!(rt; keys.next(), Some((7, 2)));
    /// assert_eq!(rt; keys.next(), None);
    /// ```
    ///
    /// Reads `text` once, up to the first byte that no key has there. Does not allocate.
    #[inline]
    fn common_prefixes<'t>(&self, text: &'t [u8]) -> CommonPrefixes<'_, 't>
        ensures { result ≡ at_front (kind self.now) (bytes self.now) text.now }
    {
        by_kind!(
            self.trie_kind(),
            CommonPrefixes::new::<_>(self.as_bytes(), text)
        )
    }

    /// Returns a lending iterator over the pairs, in the order of the trie's `iter`: each key is
    /// borrowed from one buffer. Does not allocate before the first pair, nor for each pair.
    ///
    /// ```
    /// let trie = TrieRef { kind: TrieKind::Simple, bytes: b"en\x81-Latn\x82" };
    /// let mut pairs = trie.stream(rt.alloc());
    /// assert!(rt; pairs.advance()?);
    /// assert_eq!(rt; (pairs.key(), pairs.value()), (b"en".as_slice(), 1));
    /// ```
    #[inline]
    fn stream(&self, alloc: Global) -> ZeroTrieStream<'_>
        ensures lists { (pairs : Pairs) → Lists (kind self.now) (bytes self.now) pairs
            → result.left ≡ to_come pairs }
        ensures most { length result.left.pairs ≤ length (bytes self.now) }
        ensures grouped { (pairs : Pairs) → Lists (kind self.now) (bytes self.now) pairs
            → IsGrouped result }
    {
        by_kind!(
            self.trie_kind(),
            ZeroTrieStream::new::<_>(alloc, self.as_bytes())
        )
    }

    /// Returns a lending iterator over the pairs whose keys begin with a prefix, each with its
    /// whole key, in the order of the trie's `iter`.
    ///
    /// ```
    /// let trie = TrieRef { kind: TrieKind::Simple, bytes: b"in\x83to\x84" };
    /// let mut pairs = trie.stream_prefix(rt.alloc(), b"int")?;
    /// assert!(rt; pairs.advance()?);
    /// assert_eq!(rt; (pairs.key(), pairs.value()), (b"into".as_slice(), 4));
    /// ```
    ///
    /// Reads no part of the trie but the one below the prefix. An error means that an allocation
    /// failed.
    #[inline]
    fn stream_prefix(&self, alloc: Global, prefix: &[u8]) -> Result<ZeroTrieStream<'_>, AllocError>
        ensures lists { IfOk result (λ s.
            (pairs : Pairs) → Lists (kind self.now) (bytes self.now) pairs
            → s.left ≡ to_come (beginning (kind self.now) prefix.now pairs)) }
        ensures most { IfOk result (λ s. length s.left.pairs ≤ length (bytes self.now)) }
        ensures grouped { IfOk result (λ s.
            (pairs : Pairs) → Lists (kind self.now) (bytes self.now) pairs → IsGrouped s) }
    {
        by_kind!(
            self.trie_kind(),
            ZeroTrieStream::with_prefix::<_>(alloc, self.as_bytes(), prefix)
        )
    }

    /// Returns an iterator over the values, in the order of the trie's `iter`. Does not allocate
    /// before the first `next`.
    ///
    /// ```
    /// let trie = TrieRef { kind: TrieKind::Simple, bytes: b"in\x83to\x84" };
    /// assert_eq!(rt; trie.values(rt.alloc()).next().ok_or("no value")??, 3);
    /// ```
    #[inline]
    fn values(&self, alloc: Global) -> ZeroTrieValues<'_>
        ensures lists { (pairs : Pairs) → Lists (kind self.now) (bytes self.now) pairs
            → result ≡ to_come pairs }
        ensures most { length result.pairs ≤ length (bytes self.now) }
    {
        by_kind!(
            self.trie_kind(),
            ZeroTrieValues::new::<_>(alloc, self.as_bytes())
        )
    }

    /// Returns the number of keys. Reads the bytes once and does not allocate.
    ///
    /// ```
    /// let trie = TrieRef { kind: TrieKind::Simple, bytes: b"in\x83to\x84" };
    /// assert_eq!(rt; trie.count(), 2);
    /// ```
    ///
    /// On malformed bytes the result is unspecified.
    #[inline]
    fn count(&self) -> usize
        ensures map { (m : Map) → Means (kind self.now) (bytes self.now) m → result ≡ len m }
        ensures most { result ≤ length (bytes self.now) }
    {
        by_kind!(self.trie_kind(), count_pairs::<_>(self.as_bytes()))
    }

    /// Returns the first key, in the order of the trie's `iter`, that has this value, or `None` if
    /// no key has it.
    ///
    /// ```
    /// let trie = TrieRef { kind: TrieKind::Simple, bytes: b"in\x83to\x84" };
    /// let key = trie.first_key_of(rt.alloc(), 4)?.ok_or("no key")?;
    /// assert_eq!(rt; key.as_slice(), b"into".as_slice());
    /// ```
    ///
    /// The only error is `OutOfMemory`.
    #[inline]
    fn first_key_of(&self, alloc: Global, value: usize) -> Result<Option<Vec<u8>>, ListError>
        ensures first { (pairs : Pairs) → Lists (kind self.now) (bytes self.now) pairs
            → IfOk result (λ key. option_map (λ k. k.items) key ≡ first_key_of value pairs) }
        ensures refused { IfErr result (λ e. e ≡ OutOfMemory) }
    {
        by_kind!(
            self.trie_kind(),
            first_key_of::<_>(alloc, self.as_bytes(), value)
        )
    }

    /// Returns a lending iterator over the nodes, in the order of their bytes, each with its place.
    ///
    /// ```
    /// let trie = TrieRef { kind: TrieKind::Simple, bytes: b"a\x85" };
    /// let mut nodes = trie.nodes(rt.alloc())?;
    /// assert_eq!(rt; nodes.next_node()?.ok_or("no node")?.part.place, 0);
    /// assert_eq!(rt; nodes.next_node()?.ok_or("no node")?.part.place, 1);
    /// assert!(rt; nodes.next_node()?.is_none());
    /// ```
    ///
    /// The only error is a failed allocation.
    #[inline]
    fn nodes(&self, alloc: Global) -> Result<Nodes<'_>, AllocError>
        ensures nodes { IfOk result (λ s. s ≡ nodes_of (kind self.now) (bytes self.now)) }
        ensures most { IfOk result (λ s. length s ≤ length (bytes self.now)) }
        ensures lie { IfOk result (λ s. All (LiesIn (kind self.now) (bytes self.now)) s) }
        ensures text { IfOk result (λ s. (pairs : Pairs)
            (text : Lists (kind self.now) (bytes self.now) pairs)
            → s ≡ text_visits text 0 0 None None) }
    {
        by_kind!(self.trie_kind(), Nodes::new::<_>(alloc, self.as_bytes()))
    }

    /// Returns whether the bytes are a valid trie of this kind, in which every rule of the format
    /// holds. Does not allocate.
    ///
    /// ```
    /// let trie = TrieRef { kind: TrieKind::Simple, bytes: b"abc\x85" };
    /// assert!(rt; trie.is_well_formed());
    /// ```
    #[inline]
    fn is_well_formed(&self) -> bool
        ensures { IsTrue result ↔ IsWellFormed (kind self.now) (bytes self.now) }
    {
        by_kind!(self.trie_kind(), is_well_formed::<_>(self.as_bytes()))
    }

    /// Returns the first place where the bytes are no valid trie of this kind, and which rule of
    /// the format fails there. `None` exactly if they are valid.
    ///
    /// ```
    /// let trie = TrieRef { kind: TrieKind::Simple, bytes: b"abc" };
    /// let fault = trie.first_fault(rt.alloc())?.ok_or("no fault")?;
    /// assert_eq!(rt; (fault.place, fault.cause), (3, FaultCause::UnexpectedEnd));
    /// ```
    ///
    /// The only error is a failed allocation.
    #[inline]
    fn first_fault(&self, alloc: Global) -> Result<Option<Fault>, AllocError>
        ensures none { IfOk result (λ fault. (fault ≡ None)
            ↔ IsWellFormed (kind self.now) (bytes self.now)) }
        ensures some { IfOk result (λ fault.
            IfSome fault (IsFirstFault (kind self.now) (bytes self.now))) }
        ensures within { IfOk result (λ fault.
            IfSome fault (λ f. f.place ≤ length (bytes self.now))) }
    {
        by_kind!(
            self.trie_kind(),
            first_fault::<_, Global>(alloc, self.as_bytes())
        )
    }
}

/// A trie whose kind is known only when the program runs: its plain form, which borrows the bytes.
///
/// ```
/// let trie = TrieRef { kind: TrieKind::Ignore, bytes: b"aB\x85" };
/// assert_eq!(rt; trie.get(b"Ab"), Some(5));
/// ```
#[derive(Clone, Copy, Debug)]
pub struct TrieRef<'a> {
    /// The kind of the trie.
    pub kind: TrieKind,
    /// The bytes of the trie.
    pub bytes: &'a [u8],
}

impl<'a> Trie for TrieRef<'a> {
    ghost kind = { λ t. kind_of t.kind };

    ghost bytes = { λ t. t.bytes.now };

    #[inline]
    fn trie_kind(&self) -> TrieKind {
        self.kind
    }

    #[inline]
    fn as_bytes(&self) -> &[u8] {
        self.bytes
    }
}
