//! The array builder, which writes a text from its end.

ghost use Rattle.std.specs.Prelude.{◌≡◌, ℕ, ◌<◌, ◌≤◌, ◌^◌, ◌↔◌, List, length, drop, IsOk, IfOk, IfErr};
ghost use Rattle.zerotrie_base.specs.Kind.{simple_ascii, IsAscii};
ghost use Rattle.zerotrie_base.specs.declared.error.ZeroTrieBuildError.TheVariants.{BufferTooLarge};
ghost use Rattle.zerotrie_base.specs.ArrayRoutes.{IsBuildWithin};
ghost use Rattle.zerotrie_build.specs.Items.{pairs};

mod fill;
mod text;
mod walk;

use crate::items::ByteSliceWithIndices;
pub use fill::{bytes_within, bytes_within_as, fill_from_end, fill_from_end_as};
use std::marker::Model;
use zerotrie_base::{Simple, ZeroTrieBuildError, ZeroTrieWithOptions};

/// A builder of a trie over ASCII keys in an array of `N` bytes, which it fills from the end. It
/// does not allocate.
///
/// ```
/// let items = [("ad", 22), ("adef", 33)];
/// let items = ByteSliceWithIndices::from_str_slice(&items);
/// let builder = ZeroTrieBuilderConst::<8>::from_tuple_slice(items)?;
/// assert_eq!(rt; builder.build()?.as_slice(), b"ad\x90\x06ef\x90\x11".as_slice());
/// ```
#[derive(Debug, Drop)]
pub struct ZeroTrieBuilderConst<const N: usize> {
    data: [u8; N],
    start: usize,
}

impl<const N: usize> Model for ZeroTrieBuilderConst<N> {
    ghost Value = { List ℕ };

    ghost view = { λ b. drop b.start b.«data» };

    ghost invariant = { λ b. (b.start ≤ N) × (length b.«data» ≡ N) };
}

impl<const N: usize> ZeroTrieBuilderConst<N> {
    /// Builds the trie of the items, whose keys ascend strictly by their bytes, with a stack of
    /// 100.
    ///
    /// It is `from_tuple_slice_with_stack` with room for 100 targets that wait for their branch,
    /// and has the same errors.
    pub fn from_tuple_slice(items: ByteSliceWithIndices<'_>) -> Result<Self, ZeroTrieBuildError>
        ensures { IsBuildWithin simple_ascii N 100 (λ bytes. bytes) (pairs items.entry) result }
    {
        Self::from_tuple_slice_with_stack::<100>(items)
    }

    /// Builds the trie of the items, whose keys ascend strictly by their bytes, with a stack of
    /// `K`. The bytes are the one text of the map of the items, and need not fill the array. It
    /// does not allocate. `K` has to be below 2^58, as a stack that fits a machine is.
    ///
    /// It is `fill_from_end` over an array, which says how large the stack has to be, and has the
    /// same errors.
    pub fn from_tuple_slice_with_stack<const K: usize>(
        items: ByteSliceWithIndices<'_>,
    ) -> Result<Self, ZeroTrieBuildError>
        requires { K < 2 ^ 58 }
        ensures { IsBuildWithin simple_ascii N K (λ bytes. bytes) (pairs items.entry) result }
    {
        Self::from_tuple_slice_as::<Simple, K>(items)
    }

    /// Builds the trie of the items in a kind over ASCII keys: `Simple`, or `Ignore`, whose items
    /// ascend strictly by the bytes of their keys in lower case.
    ///
    /// It is `fill_from_end_as` over an array, with the same errors.
    pub fn from_tuple_slice_as<K: ZeroTrieWithOptions, const STACK: usize>(
        items: ByteSliceWithIndices<'_>,
    ) -> Result<Self, ZeroTrieBuildError>
        requires kind { IsAscii K.kind }
        requires capacity { STACK < 2 ^ 58 }
        ensures { IsBuildWithin K.kind N STACK (λ bytes. bytes) (pairs items.entry) result }
    {
        let mut data = [0; N];
        let start = fill_from_end_as::<K, STACK>(&mut data, items)?;
        Ok(ZeroTrieBuilderConst { data, start })
    }

    /// Returns the bytes of the trie, which may be fewer than the array has.
    pub fn as_bytes(&self) -> &[u8]
        ensures value { result.now ≡ self.now }
        ensures within { length self.now ≤ N }
    {
        let all = &self.data[..];
        &all[self.start..]
    }

    /// Returns the array, which the bytes of the trie have to fill.
    ///
    /// It returns `BufferTooLarge`, which has their number, exactly if they are fewer.
    pub fn build(self) -> Result<[u8; N], ZeroTrieBuildError>
        ensures full { IsOk result ↔ (length self.entry ≡ N) }
        ensures bytes { IfOk result (λ array. array ≡ self.entry) }
        ensures refused { IfErr result (λ e. e ≡ BufferTooLarge (length self.entry)) }
    {
        if self.start > 0 {
            return Err(ZeroTrieBuildError::BufferTooLarge(N - self.start));
        }
        Ok(self.data)
    }
}
