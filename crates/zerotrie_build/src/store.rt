//! Lists of bytes that grow at their front.

ghost use Rattle.std.specs.Prelude.{◌≡◌, ℕ, ◌+◌, ◌<◌, ◌≤◌, List, [], ◌∷◌, ◌++◌, length, map, replicate, All, IfOk, OnOk, OnErr, slice_set, slice_index, bit_or, take, drop, ◌^◌};
ghost use Rattle.std.specs.List.{concat, range_with_len};
ghost use Rattle.std.specs.List.Sorted.{IsPermutation};
ghost use Rattle.zerotrie_base.specs.Branches.{total};
ghost use Rattle.zerotrie_build.specs.Ranges.{range_at, laid_out};
ghost use Rattle.zerotrie_build.specs.Zeros.{IsClear, set_to};

use std::alloc::{AllocError, Global};
use std::collections::VecDeque;

/// A list of bytes that grows at its front.
///
/// ```
/// let mut store: VecDeque<u8> = TrieBuilderStore::atbs_new_empty(rt.alloc());
/// store.atbs_extend_front(b"bc")?;
/// store.atbs_push_front(b'a')?;
/// assert_eq!(rt; store.atbs_to_bytes(rt.alloc())?.as_slice(), b"abc".as_slice());
/// ```
///
/// A call that grows fails only if memory runs out, and the list is then as it was.
pub trait TrieBuilderStore: Sized {
    ghost list: { Self → List ℕ };

    /// Returns a store with no bytes. Does not allocate.
    fn atbs_new_empty(alloc: Global) -> Self
        ensures { list result ≡ [] };

    /// Returns how many bytes there are.
    fn atbs_len(&self) -> usize
        ensures { result ≡ length (list self.now) };

    /// Puts one byte in front.
    fn atbs_push_front(&mut self, byte: u8) -> Result<(), AllocError>
        ensures ok { OnOk result (list self.new ≡ byte ∷ list self.old) }
        ensures err { OnErr result (list self.new ≡ list self.old) };

    /// Puts bytes in front, in the order that they have.
    fn atbs_extend_front(&mut self, bytes: &[u8]) -> Result<(), AllocError>
        ensures ok { OnOk result (list self.new ≡ bytes.now ++ list self.old) }
        ensures err { OnErr result (list self.new ≡ list self.old) };

    /// Returns a copy of the bytes.
    fn atbs_to_bytes(&self, alloc: Global) -> Result<Vec<u8>, AllocError>
        ensures { IfOk result (λ bytes. bytes.items ≡ list self.now) };

    /// Sets these bits in the byte of number `index`, counted from 0 at the front.
    fn atbs_bitor_assign(&mut self, index: usize, bits: u8)
        requires { index < length (list self.old) }
        ensures { list self.new ≡ slice_set (list self.old) index
            (bit_or (slice_index (list self.old) index) bits) };

    /// Sets these bytes from number `index` on, where all bytes are zeros, from the first to the
    /// last. A store whose bytes lie together can copy them at once, as `VecDeque` does.
    ///
    /// ```
    /// let mut store: VecDeque<u8> = TrieBuilderStore::atbs_new_empty(rt.alloc());
    /// store.atbs_prepend_n_zeros(4)?;
    /// store.atbs_set_zeros(1, b"bc");
    /// assert_eq!(rt; store.atbs_to_bytes(rt.alloc())?.as_slice(), b"\0bc\0".as_slice());
    /// ```
    fn atbs_set_zeros(&mut self, index: usize, bytes: &[u8])
        requires zeros { IsClear (list self.old) index }
        requires fit { index + length bytes.now ≤ length (list self.old) }
        ensures { list self.new ≡ set_to (list self.old) index bytes.now }
    {
        for i in 0..bytes.len() {
            self.atbs_bitor_assign(index + i, bytes[i]);
        }
    }

    /// Removes the first byte and returns it.
    fn atbs_pop_front(&mut self) -> u8
        requires { 0 < length (list self.old) }
        ensures { list self.old ≡ result ∷ list self.new };

    /// Puts `count` zeros in front.
    fn atbs_prepend_n_zeros(&mut self, count: usize) -> Result<(), AllocError>
        ensures ok { OnOk result (list self.new ≡ replicate count 0 ++ list self.old) }
        ensures err { OnErr result (list self.new ≡ list self.old) };

    /// Cuts the front into ranges of these lengths, in bytes, and arranges them in this order: the
    /// range of number `order[0]` comes first. What lies after the ranges stays.
    ///
    /// ```
    /// let mut store: VecDeque<u8> = TrieBuilderStore::atbs_new_empty(rt.alloc());
    /// store.atbs_extend_front(b"abcdefghijklmn--")?;
    /// store.atbs_permute_front(&[2, 5, 7], &[0, 2, 1])?;
    /// assert_eq!(rt; store.atbs_to_bytes(rt.alloc())?.as_slice(), b"abhijklmncdefg--".as_slice());
    /// ```
    fn atbs_permute_front(&mut self, lengths: &[usize], order: &[usize]) -> Result<(), AllocError>
        requires fit { total lengths.now ≤ length (list self.old) }
        requires permutation { IsPermutation (range_with_len 0 (length lengths.now)) order.now }
        ensures ok { OnOk result (list self.new ≡ laid_out lengths.now order.now (list self.old)) }
        ensures err { OnErr result (list self.new ≡ list self.old) };
}

/// Returns the sum of the lengths before the range of number `index`.
fn start_of(lengths: &[usize], index: usize) -> usize
    requires at { index ≤ length lengths.now }
    requires fits { total lengths.now < 2 ^ 64 }
    ensures { result ≡ total (take index lengths.now) }
{
    let mut start = 0;
    for i in 0..index {
        start += lengths[i];
    }
    start
}

/// Returns the bytes in the range of number `index`.
#[tactic(auto, using(crate::proofs::Ranges::total_take_at))]
fn range_of<'a>(bytes: &'a [u8], lengths: &[usize], index: usize) -> &'a [u8]
    requires at { index < length lengths.now }
    requires fits { total lengths.now ≤ length bytes.now }
    ensures { result.now ≡ range_at lengths.now bytes.now index }
{
    let start = start_of(lengths, index);
    &bytes[start..start + lengths[index]]
}

/// Returns the ranges in this order.
fn ranges_in_order(
    alloc: Global,
    bytes: &[u8],
    lengths: &[usize],
    order: &[usize],
) -> Result<Vec<u8>, AllocError>
    requires fits { total lengths.now ≤ length bytes.now }
    requires in_range { All (λ i. i < length lengths.now) order.now }
    ensures { IfOk result (λ out.
        out.items ≡ concat (map (range_at lengths.now bytes.now) order.now)) }
{
    let mut out = Vec::new(alloc);
    for index in order {
        out.extend_from_slice(range_of(bytes, lengths, *index))?;
    }
    Ok(out)
}

/// Puts bytes over the front.
fn overwrite_front(store: &mut VecDeque<u8>, bytes: &[u8])
    requires { length bytes.now ≤ length store.old.items }
    ensures { store.new.items ≡ bytes.now ++ drop (length bytes.now) store.old.items }
{
    for i in 0..bytes.len() {
        store[i] = bytes[i];
    }
}

/// So many bytes are set one after another at least as fast as by a copy.
const SHORT: usize = 15;

/// Puts bytes over those from number `index` on.
fn copy_to(store: &mut VecDeque<u8>, index: usize, bytes: &[u8])
    requires { index + length bytes.now ≤ length store.old.items }
    ensures { store.new.items ≡ set_to store.old.items index bytes.now }
{
    store.make_contiguous()[index..index + bytes.len()].copy_from_slice(bytes);
}

impl TrieBuilderStore for VecDeque<u8> {
    ghost list = { λ s. s.items };

    fn atbs_new_empty(alloc: Global) -> Self {
        VecDeque::new(alloc)
    }

    fn atbs_len(&self) -> usize {
        self.len()
    }

    fn atbs_push_front(&mut self, byte: u8) -> Result<(), AllocError> {
        self.push_front(byte)?;
        Ok(())
    }

    fn atbs_extend_front(&mut self, bytes: &[u8]) -> Result<(), AllocError> {
        self.reserve(bytes.len())?;
        for index in (0..bytes.len()).rev() {
            self.push_front_reserved(bytes[index]);
        }
        Ok(())
    }

    fn atbs_to_bytes(&self, alloc: Global) -> Result<Vec<u8>, AllocError> {
        let mut bytes = Vec::with_capacity(alloc, self.len())?;
        let (front, back) = self.as_slices();
        bytes.extend_from_slice(front)?;
        bytes.extend_from_slice(back)?;
        Ok(bytes)
    }

    #[inline(always)]
    fn atbs_bitor_assign(&mut self, index: usize, bits: u8) {
        self[index] |= bits;
    }

    #[inline(always)]
    fn atbs_set_zeros(&mut self, index: usize, bytes: &[u8]) {
        if bytes.len() > SHORT {
            copy_to(self, index, bytes);
            return;
        }
        for i in 0..bytes.len() {
            self.atbs_bitor_assign(index + i, bytes[i]);
        }
    }

    fn atbs_pop_front(&mut self) -> u8 {
        self.pop_front().unwrap()
    }

    fn atbs_prepend_n_zeros(&mut self, count: usize) -> Result<(), AllocError> {
        if self.is_empty() {
            let mut zeros = Vec::with_capacity(*self.allocator(), count)?;
            zeros.resize(count, 0)?;
            *self = VecDeque::from_vec(zeros);
            return Ok(());
        }
        self.reserve(count)?;
        let mut left = count;
        while left > 0 {
            left -= 1;
            self.push_front_reserved(0);
        }
        Ok(())
    }

    fn atbs_permute_front(&mut self, lengths: &[usize], order: &[usize]) -> Result<(), AllocError> {
        let bytes = self.atbs_to_bytes(*self.allocator())?;
        let ranges = ranges_in_order(*self.allocator(), bytes.as_slice(), lengths, order)?;
        overwrite_front(self, ranges.as_slice());
        Ok(())
    }
}
