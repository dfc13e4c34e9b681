//! The bytes of a trie: validation, and tagged bytes, which begin with the number of the kind.

ghost use Rattle.std.specs.Prelude.{◌≡◌, ◌↔◌, IsTrue, IfOk, IfErr};
ghost use Rattle.zerotrie_core.specs.Kind.{tag};
ghost use Rattle.zerotrie_core.specs.WellFormed.{IsWellFormed};
ghost use Rattle.zerotrie_any.specs.Tagged.{tagged, IsTagFault};
ghost use Rattle.zerotrie_any.specs.Loaded.{IsLoaded, IsLoadFault};

use crate::trie::{AsciiKind, AsciiTrie};
use std::alloc::{AllocError, Global};
use zerotrie_any::{LoadError, NotWellFormed, TagError, loaded, tagged, untagged};
use zerotrie_core::{TrieStore, is_well_formed};

impl<K: AsciiKind, S: TrieStore> AsciiTrie<K, S> {
    /// Returns whether the bytes are a valid trie of this kind, in which every rule of the format
    /// holds. Does not allocate.
    ///
    /// ```
    /// let trie = ZeroTrieSimpleAscii::from_bytes(b"abc\x85");
    /// assert!(rt; trie.is_well_formed());
    /// ```
    pub fn is_well_formed(&self) -> bool
        ensures { IsTrue result ↔ IsWellFormed K.kind (S.stored self.now.store) }
    {
        is_well_formed::<K>(self.as_bytes())
    }

    /// Returns the tag of the kind, followed by the bytes of the trie.
    ///
    /// ```
    /// let trie = ZeroTrieSimpleAscii::from_bytes(b"a\x85");
    /// assert_eq!(rt; trie.to_tagged_bytes(rt.alloc())?.as_slice(), b"\x00a\x85".as_slice());
    /// ```
    ///
    /// An error means that an allocation failed.
    pub fn to_tagged_bytes(&self, alloc: Global) -> Result<Vec<u8>, AllocError>
        ensures { IfOk result (λ t. t.items ≡ tagged K.kind (S.stored self.now.store)) }
    {
        tagged::<K>(alloc, self.as_bytes())
    }
}

impl<'a, K: AsciiKind> AsciiTrie<K, &'a [u8]> {
    /// Returns the trie over these bytes if they are valid. Does not allocate.
    ///
    /// ```
    /// let trie = ZeroTrieSimpleAscii::try_from_bytes(b"in\x83to\x84")?;
    /// assert_eq!(rt; trie.get(b"into"), Some(4));
    /// assert!(rt; ZeroTrieSimpleAscii::try_from_bytes(b"into").is_err());
    /// ```
    ///
    /// The error is `NotWellFormed` exactly if the bytes are malformed. Read tagged bytes by
    /// `load`: this call would take their tag for the first byte of every key.
    pub fn try_from_bytes(bytes: &'a [u8]) -> Result<Self, NotWellFormed>
        ensures bytes { IfOk result (λ trie. trie.store.now ≡ bytes.now) }
        ensures ok { IfOk result (λ _. IsWellFormed K.kind bytes.now) }
        ensures err { IfErr result (λ _. IsWellFormed K.kind bytes.now → ⊥) }
    {
        if is_well_formed::<K>(bytes) {
            Ok(AsciiTrie::from_bytes(bytes))
        } else {
            Err(NotWellFormed)
        }
    }

    /// Returns the trie over the bytes after the tag of its kind. Does not copy or validate them,
    /// and does not allocate.
    ///
    /// ```
    /// let trie = ZeroTrieSimpleAscii::try_from_tagged_bytes(b"\x00a\x85")?;
    /// assert_eq!(rt; trie.get(b"a"), Some(5));
    /// ```
    ///
    /// The error is `Empty` if there are no bytes, and `InvalidTag` if the first byte is not the
    /// kind's tag.
    pub fn try_from_tagged_bytes(bytes: &'a [u8]) -> Result<Self, TagError>
        ensures ok { IfOk result (λ trie. bytes.now ≡ tagged K.kind trie.store.now) }
        ensures err { IfErr result (λ e. IsTagFault (λ t. tag K.kind ≡ t) bytes.now e) }
    {
        let behind = untagged::<K>(bytes)?;
        Ok(AsciiTrie::from_bytes(behind))
    }

    /// Returns the trie over the bytes after the tag of its kind, if they are valid. Does not copy
    /// them, and does not allocate.
    ///
    /// ```
    /// let trie = ZeroTrieSimpleAscii::load(b"\x00a\x85")?;
    /// assert_eq!(rt; trie.get(b"a"), Some(5));
    /// assert!(rt; ZeroTrieSimpleAscii::load(b"\x00a").err() == Some(LoadError::NotWellFormed));
    /// ```
    ///
    /// This is `try_from_tagged_bytes` followed by `is_well_formed`. The error is `Tag` exactly if
    /// the first of these returns an error, and `NotWellFormed` exactly if the tag is right and the
    /// bytes after it are malformed.
    pub fn load(bytes: &'a [u8]) -> Result<Self, LoadError>
        ensures ok { IfOk result (λ trie. IsLoaded K.kind bytes.now trie.store.now) }
        ensures err { IfErr result (IsLoadFault (λ t. tag K.kind ≡ t) bytes.now) }
    {
        let rest = loaded::<K>(bytes)?;
        Ok(AsciiTrie::from_bytes(rest))
    }
}
