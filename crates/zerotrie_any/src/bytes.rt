//! The bytes of a trie: validation, and tagged bytes, which begin with the number of the kind.

ghost use Rattle.std.specs.Prelude.{◌≡◌, ◌↔◌, IsTrue, IfOk, IfErr, IfSome, None};
ghost use Rattle.zerotrie_core.specs.Kind.{tag};
ghost use Rattle.zerotrie_core.specs.WellFormed.{IsWellFormed};
ghost use Rattle.zerotrie_any.specs.Flavors.{flavor_kind};
ghost use Rattle.zerotrie_any.specs.Tagged.{tagged, IsTagFault, IsFlavorTag};
ghost use Rattle.zerotrie_any.specs.Loaded.{IsLoaded, IsLoadFault};
ghost use Rattle.zerotrie_any.specs.declared.bytes.LoadError.TheVariants.{Tag};

use crate::trie::{HasFlavor, ZeroTrie, ZeroTrieFlavor, by_flavor};
use std::alloc::{AllocError, Global};
use thiserror::Error;
use zerotrie_core::{Ext, Hash, Simple, TrieStore, ZeroTrieWithOptions, is_well_formed};

/// The bytes are not a valid trie.
///
/// ```
/// let error = ZeroTrie::try_from_bytes::<Simple>(b"abc").err();
/// assert!(rt; error == Some(NotWellFormed));
/// ```
#[derive(Clone, Copy, PartialEq, Eq, Debug, Error)]
#[error("the bytes are no trie of the kind: they were changed, cut or written as another kind")]
pub struct NotWellFormed;

/// Tagged bytes do not begin with the tag of a kind that is read.
///
/// ```
/// assert!(rt; untagged::<Ext>(b"\x03\x81").err() == Some(TagError::InvalidTag));
/// ```
#[derive(Clone, PartialEq, Eq, Debug, Drop, Error)]
pub enum TagError {
    /// There are no bytes.
    #[error("Empty")]
    Empty,
    /// The first byte is the tag of another kind, or of none.
    #[error("InvalidTag")]
    InvalidTag,
}

impl TagError {
    /// Returns what the error means, and what to do about it.
    pub fn advice(&self) -> &'static str {
        match self {
            TagError::Empty => "there are no bytes: give all of the tagged bytes",
            TagError::InvalidTag => {
                "the first byte is the tag of another kind or of none: give bytes that were written with the tag of the kind that is read"
            }
        }
    }
}

/// Tagged bytes are not a valid trie of a kind that is read.
///
/// ```
/// assert!(rt; ZeroTrie::load(b"\x00abc").err() == Some(LoadError::NotWellFormed));
/// assert!(rt; ZeroTrie::load(b"").err() == Some(LoadError::Tag(TagError::Empty)));
/// ```
#[derive(Clone, PartialEq, Eq, Debug, Drop, Error)]
pub enum LoadError {
    /// There are no bytes, or the first is not the tag of a kind that is read.
    #[error("the bytes begin with no tag of a kind that is read: {0}")]
    Tag(TagError),
    /// The bytes after the tag are malformed.
    #[error("the bytes after the tag are no trie of its kind: they were changed or cut")]
    NotWellFormed,
}

impl From<TagError> for LoadError {
    ghost from_gives = { λ cause e. e ≡ Tag cause };

    fn from(cause: TagError) -> Self {
        LoadError::Tag(cause)
    }
}

/// Returns the tag of the kind `K`, followed by these bytes.
///
/// ```
/// let tagged = tagged::<Hash>(rt.alloc(), b"a\x85")?;
/// assert_eq!(rt; tagged.as_slice(), b"\x03a\x85".as_slice());
/// ```
///
/// An error means that an allocation failed.
pub fn tagged<K: ZeroTrieWithOptions>(alloc: Global, bytes: &[u8]) -> Result<Vec<u8>, AllocError>
    ensures { IfOk result (λ t. t.items ≡ tagged K.kind bytes.now) }
{
    let mut tagged = Vec::with_capacity(alloc, bytes.len() + 1)?;
    tagged.push(K::TAG)?;
    tagged.extend_from_slice(bytes)?;
    Ok(tagged)
}

/// Returns the bytes after the tag of the kind `K`. Does not copy or validate them, and does not
/// allocate.
///
/// ```
/// assert!(rt; untagged::<Hash>(b"\x03a\x85") == Ok(b"a\x85".as_slice()));
/// ```
///
/// The error is `Empty` if there are no bytes, and `InvalidTag` if the first byte is not the kind's
/// tag.
pub fn untagged<K: ZeroTrieWithOptions>(bytes: &[u8]) -> Result<&[u8], TagError>
    ensures ok { IfOk result (λ behind. bytes.now ≡ tagged K.kind behind.now) }
    ensures err { IfErr result (λ e. IsTagFault (λ t. tag K.kind ≡ t) bytes.now e) }
{
    match bytes {
        [] => Err(TagError::Empty),
        [first, behind @ ..] if *first == K::TAG => Ok(behind),
        _ => Err(TagError::InvalidTag),
    }
}

/// Returns the bytes after the tag of the kind `K`, if they are valid. Does not copy them, and does
/// not allocate.
///
/// ```
/// assert!(rt; loaded::<Hash>(b"\x03a\x85") == Ok(b"a\x85".as_slice()));
/// ```
///
/// The error is `Tag` exactly if there are no bytes or the first is not the kind's tag, and
/// `NotWellFormed` exactly if the tag is right and the bytes after it are malformed.
pub fn loaded<K: ZeroTrieWithOptions>(bytes: &[u8]) -> Result<&[u8], LoadError>
    ensures ok { IfOk result (λ rest. IsLoaded K.kind bytes.now rest.now) }
    ensures err { IfErr result (IsLoadFault (λ t. tag K.kind ≡ t) bytes.now) }
{
    let rest = untagged::<K>(bytes)?;
    if is_well_formed::<K>(rest) {
        Ok(rest)
    } else {
        Err(LoadError::NotWellFormed)
    }
}

/// Returns the kind of a `ZeroTrie` that has this tag, if there is one.
fn flavor_of(first: u8) -> Option<ZeroTrieFlavor>
    ensures some { IfSome result (λ flavor. tag (flavor_kind flavor) ≡ first) }
    ensures none { result ≡ None → IsFlavorTag first → ⊥ }
{
    match first {
        Simple::TAG => Some(ZeroTrieFlavor::SimpleAscii),
        Hash::TAG => Some(ZeroTrieFlavor::PerfectHash),
        Ext::TAG => Some(ZeroTrieFlavor::ExtendedCapacity),
        _ => None,
    }
}

impl<S: TrieStore> ZeroTrie<S> {
    /// Returns whether the bytes are a valid trie of this kind, in which every rule of the format
    /// holds. Does not allocate.
    pub fn is_well_formed(&self) -> bool
        ensures { IsTrue result ↔ IsWellFormed (flavor_kind self.now.flavor)
            (S.stored self.now.store) }
    {
        let bytes = self.store.bytes();
        by_flavor!(self.flavor, is_well_formed::<_>(bytes))
    }

    /// Returns the tag of the kind, followed by the bytes of the trie.
    ///
    /// ```
    /// let trie = ZeroTrie::of_kind::<Hash>(b"a\x85".as_slice());
    /// assert_eq!(rt; trie.to_tagged_bytes(rt.alloc())?.as_slice(), b"\x03a\x85".as_slice());
    /// ```
    ///
    /// An error means that an allocation failed.
    pub fn to_tagged_bytes(&self, alloc: Global) -> Result<Vec<u8>, AllocError>
        ensures { IfOk result (λ t.
            t.items ≡ tagged (flavor_kind self.now.flavor) (S.stored self.now.store)) }
    {
        let bytes = self.store.bytes();
        by_flavor!(self.flavor, tagged::<_>(alloc, bytes))
    }
}

impl<'a> ZeroTrie<&'a [u8]> {
    /// Returns the trie over these bytes if they are valid. Does not allocate.
    ///
    /// ```
    /// let trie = ZeroTrie::try_from_bytes::<Simple>(b"abc\x85")?;
    /// assert_eq!(rt; trie.get(b"abc"), Some(5));
    /// ```
    ///
    /// The error is `NotWellFormed` exactly if the bytes are malformed. Read tagged bytes by
    /// `load`: this call would take their tag for the first byte of every key.
    pub fn try_from_bytes<K: HasFlavor>(bytes: &'a [u8]) -> Result<Self, NotWellFormed>
        ensures kind { IfOk result (λ trie. flavor_kind trie.flavor ≡ K.kind) }
        ensures bytes { IfOk result (λ trie. trie.store.now ≡ bytes.now) }
        ensures ok { IfOk result (λ _. IsWellFormed K.kind bytes.now) }
        ensures err { IfErr result (λ _. IsWellFormed K.kind bytes.now → ⊥) }
    {
        if is_well_formed::<K>(bytes) {
            Ok(ZeroTrie::of_kind::<K>(bytes))
        } else {
            Err(NotWellFormed)
        }
    }

    /// Returns the trie over the bytes after the tag of a kind. Does not copy or validate them, and
    /// does not allocate.
    ///
    /// ```
    /// let trie = ZeroTrie::try_from_tagged_bytes(b"\x07a\x85")?;
    /// assert_eq!(rt; trie.get(b"a"), Some(5));
    /// ```
    ///
    /// The error is `Empty` if there are no bytes, and `InvalidTag` if the first byte is not the
    /// tag of a kind that a `ZeroTrie` may have: 0, 3 or 7.
    pub fn try_from_tagged_bytes(bytes: &'a [u8]) -> Result<Self, TagError>
        ensures ok { IfOk result (λ trie.
            bytes.now ≡ tagged (flavor_kind trie.flavor) trie.store.now) }
        ensures err { IfErr result (λ e. IsTagFault IsFlavorTag bytes.now e) }
    {
        let [first, store @ ..] = bytes else {
            return Err(TagError::Empty);
        };
        match flavor_of(*first) {
            Some(flavor) => Ok(ZeroTrie { flavor, store }),
            None => Err(TagError::InvalidTag),
        }
    }

    /// Returns the trie over the bytes after the tag of a kind, if they are valid. Does not copy
    /// them, and does not allocate.
    ///
    /// ```
    /// let trie = ZeroTrie::load(b"\x07a\x85")?;
    /// assert_eq!(rt; trie.get(b"a"), Some(5));
    /// ```
    ///
    /// This is `try_from_tagged_bytes` followed by `is_well_formed`. The error is `Tag` exactly if
    /// the first of these returns an error, and `NotWellFormed` exactly if the tag is right and the
    /// bytes after it are malformed.
    pub fn load(bytes: &'a [u8]) -> Result<Self, LoadError>
        ensures ok { IfOk result (λ trie.
            IsLoaded (flavor_kind trie.flavor) bytes.now trie.store.now) }
        ensures err { IfErr result (IsLoadFault IsFlavorTag bytes.now) }
    {
        let trie = ZeroTrie::try_from_tagged_bytes(bytes)?;
        if trie.is_well_formed() {
            Ok(trie)
        } else {
            Err(LoadError::NotWellFormed)
        }
    }
}
