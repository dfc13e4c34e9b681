//! The values of a trie, one after another, and the first key that has a value.

ghost use Rattle.std.specs.Prelude.{◌≡◌, ◌≤◌, IfErr, IfOk, length};
ghost use Rattle.std.specs.Iterator.{at_most};
ghost use Rattle.std.specs.Option.{option_map};
ghost use Rattle.zerotrie_base.specs.Maps.{Pairs};
ghost use Rattle.zerotrie_base.specs.Texts.{Lists};
ghost use Rattle.zerotrie_core.specs.Values.{first_key_of};
ghost use Rattle.zerotrie_core.specs.declared.listing.ListError.TheVariants.{OutOfMemory};

use crate::listing::ListError;
use crate::stream::ZeroTrieStream;
use std::alloc::Global;
use std::marker::Model;
use zerotrie_base::ZeroTrieWithOptions;

/// An iterator over the values of a trie, in the order of `ZeroTrieIterator`.
///
/// An item is a value, or `ListError::OutOfMemory` if an allocation fails: the iterator keeps the
/// current key in a buffer, which may grow. After an error, and after the end, each `next` returns
/// `None`.
#[derive(Debug, Drop)]
pub struct ZeroTrieValues<'a> {
    pairs: ZeroTrieStream<'a>,
}

impl<'a> Model for ZeroTrieValues<'a> {
    ghost use Rattle.zerotrie_core.specs.Listings.{Left};

    ghost Value = { Left };

    ghost view = { λ s. s.pairs.left };
}

impl<'a> ZeroTrieValues<'a> {
    ghost use Rattle.zerotrie_core.specs.Listings.{to_come};

    /// Returns the values of the trie in these bytes. Does not allocate before the first `next`.
    pub fn new<K: ZeroTrieWithOptions>(alloc: Global, bytes: &'a [u8]) -> Self
        ensures lists { (pairs : Pairs) → Lists K.kind bytes.now pairs → result ≡ to_come pairs }
        ensures most { length result.pairs ≤ length bytes.now }
    {
        ZeroTrieValues {
            pairs: ZeroTrieStream::new::<K>(alloc, bytes),
        }
    }
}

impl<'a> Iterator for ZeroTrieValues<'a> {
    type Item = Result<usize, ListError>;

    ghost use Rattle.zerotrie_core.specs.Listings.{MemoryOnly, turns_left};
    ghost use Rattle.zerotrie_core.specs.Parts.{ListsPart};

    ghost next_gives = { ListsPart (λ e value. e.1 ≡ value) MemoryOnly };

    ghost remaining = { λ s. at_most (turns_left s) };

    fn next(&mut self) -> Option<Result<usize, ListError>> {
        match self.pairs.advance() {
            Ok(false) => None,
            Ok(true) => Some(Ok(self.pairs.value())),
            Err(_) => Some(Err(ListError::OutOfMemory)),
        }
    }
}

/// Returns the first key, in the order of `ZeroTrieIterator`, that has this value, or `None` if no
/// key has it.
///
/// ```
/// let key = first_key_of::<Simple>(rt.alloc(), b"ad\x90\x06ef\x90\x11", 22)?.ok_or("no key")?;
/// assert_eq!(rt; key.as_slice(), b"ad".as_slice());
/// ```
///
/// Reads the pairs up to that key, and copies no other key. The only error is `OutOfMemory`.
pub fn first_key_of<K: ZeroTrieWithOptions>(
    alloc: Global,
    bytes: &[u8],
    value: usize,
) -> Result<Option<Vec<u8>>, ListError>
    ensures first { (pairs : Pairs) → Lists K.kind bytes.now pairs
        → IfOk result (λ key. option_map (λ k. k.items) key ≡ first_key_of value pairs) }
    ensures refused { IfErr result (λ e. e ≡ OutOfMemory) }
{
    let mut pairs = ZeroTrieStream::new::<K>(alloc, bytes);
    while pairs.advance()? {
        if pairs.value() == value {
            return Ok(Some(Vec::from_slice(alloc, pairs.key())?));
        }
    }
    Ok(None)
}
