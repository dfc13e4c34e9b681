//! The index of a trie.

ghost use Rattle.std.specs.Prelude.{◌≡◌, ◌++◌, OnOk};
ghost use Rattle.zerotrie_base.specs.Maps.{Pairs};
ghost use Rattle.zerotrie_base.specs.Texts.{Lists};
ghost use Rattle.zerotrie_core.specs.listing.Listed.{listed};
ghost use Rattle.zerotrie_index.specs.Built.{IsIndexBuild};
ghost use Rattle.zerotrie_index.specs.Tries.{folded_key, folded_pairs};

use crate::error::ZeroIndexBuildError;
use crate::index::ZeroIndex;
use crate::lent::ZeroIndexBuilder;
use std::alloc::{AllocError, Global};
use zerotrie_base::{ZeroTrieWithOptions, folded};
use zerotrie_core::ZeroTrieStream;

/// Appends each byte of a key as the kind compares it.
fn add_folded<K: ZeroTrieWithOptions>(text: &mut Vec<u8>, key: &[u8]) -> Result<(), AllocError>
    ensures { OnOk result (text.new.items ≡ text.old.items ++ folded_key K.kind key.now) }
{
    for byte in key {
        text.push(folded::<K>(*byte))?;
    }
    Ok(())
}

/// Appends the pairs to come of a stream.
fn push_all<K: ZeroTrieWithOptions>(
    alloc: Global,
    builder: &mut ZeroIndexBuilder,
    stream: &mut ZeroTrieStream<'_>,
) -> Result<(), AllocError>
    ensures { OnOk result (builder.new
        ≡ builder.old ++ folded_pairs K.kind stream.old.left.pairs) }
{
    let mut key = Vec::new(alloc);
    while stream.advance()? {
        key.clear();
        add_folded::<K>(&mut key, stream.key())?;
        builder.push(key.as_slice(), stream.value())?;
    }
    Ok(())
}

impl ZeroIndex<Vec<u8>> {
    /// Builds the index of a trie of the kind `K`. If the kind ignores case, the keys of the index
    /// are in lower case; ask for these.
    ///
    /// ```
    /// let trie = b"a\xC2bc\x01\x81\x82";           // the keys "ab" with value 1 and "ac" with value 2
    /// let index = ZeroIndex::from_trie::<Simple>(rt.alloc(), trie)?;
    /// assert_eq!(rt; index.get(b"ac"), Some(2));
    /// let index = ZeroIndex::from_trie::<Ignore>(rt.alloc(), b"A\x85")?;
    /// assert_eq!(rt; (index.get(b"a"), index.get(b"A")), (Some(5), None));
    /// ```
    ///
    /// Holds all pairs until the build is done. The bytes are not validated: of malformed ones the
    /// index is that of the pairs which `ZeroTrieStream` lists. The errors are those of
    /// `try_from_unsorted_slice`.
    pub fn from_trie<K: ZeroTrieWithOptions>(
        alloc: Global,
        bytes: &[u8],
    ) -> Result<Self, ZeroIndexBuildError>
        ensures always { IsIndexBuild 0 (λ index. index.store.items)
            (folded_pairs K.kind (listed K.kind bytes.now)) result }
        ensures map { (pairs : Pairs) → Lists K.kind bytes.now pairs
            → IsIndexBuild 0 (λ index. index.store.items) (folded_pairs K.kind pairs) result }
    {
        let mut builder = ZeroIndexBuilder::new(alloc);
        let mut stream = ZeroTrieStream::new::<K>(alloc, bytes);
        push_all::<K>(alloc, &mut builder, &mut stream)?;
        builder.build(alloc, 0)
    }
}
