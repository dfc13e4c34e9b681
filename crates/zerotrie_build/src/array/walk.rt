//! The items, from the last to the first, and the branches where they part.
//!
//! In front is the text of what lies under the first bytes of one key, and after it the targets of
//! open branches, the siblings, of which the one that was set aside last comes first.

ghost use Rattle.std.specs.Prelude.{◌≡◌, ◌≢◌, ℕ, ◌+◌, ◌^◌, ◌<◌, ◌≤◌, ◌∷◌, length, take, drop, All, IfOk, IfErr, OnOk, true, false, suc, List};
ghost use Rattle.zerotrie_base.specs.Kind.{IsAscii};
ghost use Rattle.zerotrie_base.specs.Maps.{Pairs};
ghost use Rattle.zerotrie_base.specs.Texts.{Lists};
ghost use Rattle.zerotrie_base.specs.Stack.{stack_of};
ghost use Rattle.zerotrie_base.specs.declared.error.ZeroTrieBuildError.TheVariants.{CapacityExceeded, StackExceeded};
ghost use Rattle.zerotrie_build.specs.Items.{pairs};
ghost use Rattle.zerotrie_build.specs.Order.{Before, Ordered};
ghost use Rattle.zerotrie_build.specs.array.Texts.{EndsIn, Keeps, newest_first};
ghost use Rattle.zerotrie_build.specs.array.Growing.{NoneAt, AllAt, IsClosedTo, IsReady, BuiltFrom, Joins, LevelTooWide, RefusedAt, RefusedFrom, RefusedBefore, IsRefusedBuild};

use crate::array::text::{Sibling, Text, total};
use crate::items::ByteSliceWithIndices;
use crate::order::common_front_len;
use arrayvec::ArrayVec;
use zerotrie_base::{ZeroTrieBuildError, ZeroTrieWithOptions};

/// Sets the text in front aside as the target of a branch at this depth.
fn set_aside<const STACK: usize>(
    text: &mut Text<'_>,
    siblings: &mut ArrayVec<Sibling, STACK>,
    byte: u8,
    depth: usize,
) -> Result<(), ZeroTrieBuildError>
    ensures aside { OnOk result (newest_first siblings.new.items
        ≡ record { depth = depth; byte = byte; len = text.old.front }
        ∷ newest_first siblings.old.items) }
    ensures room { OnOk result (length siblings.old.items < STACK) }
    ensures front { OnOk result (text.new.front ≡ 0) }
    ensures bytes { OnOk result (text.new.buffer.now ≡ text.old.buffer.now) }
    ensures len { OnOk result (text.new.len ≡ text.old.len) }
    ensures keeps { OnOk result (Keeps text.old text.new) }
    ensures refused { IfErr result (λ e. (e ≡ StackExceeded) × (STACK ≤ length siblings.old.items)) }
{
    if siblings.is_full() {
        return Err(ZeroTrieBuildError::StackExceeded);
    }
    let len = text.front;
    siblings.push(Sibling { depth, byte, len });
    text.front = 0;
    Ok(())
}

/// Returns where the siblings at this depth begin, which were set aside last.
fn start_of<const STACK: usize>(siblings: &ArrayVec<Sibling, STACK>, depth: usize) -> usize
    ensures within { result ≤ length siblings.now.items }
    ensures level { AllAt depth (newest_first (drop result siblings.now.items)) }
    ensures no_more { NoneAt depth (newest_first (take result siblings.now.items)) }
{
    let mut start = siblings.len();
    while start > 0 && siblings[start - 1].depth == depth {
        start -= 1;
    }
    start
}

/// Makes a branch of the siblings at this depth.
fn join<const STACK: usize>(
    text: &mut Text<'_>,
    siblings: &mut ArrayVec<Sibling, STACK>,
    depth: usize,
) -> Result<(), ZeroTrieBuildError>
    ensures keeps { OnOk result (Keeps text.old text.new) }
    ensures joins { OnOk result (Joins depth text.old text.new
        (newest_first siblings.old.items) (newest_first siblings.new.items)) }
    ensures refused { IfErr result (λ e. (e ≡ CapacityExceeded)
        × LevelTooWide depth (newest_first siblings.old.items)) }
{
    let start = start_of(siblings, depth);
    let branch = &siblings.as_slice()[start..];
    let total = total(branch);
    if total as u64 >= 1 << 32 || total == usize::MAX {
        return Err(ZeroTrieBuildError::CapacityExceeded);
    }
    text.front = total;
    text.put_branch(branch, total);
    siblings.truncate(start);
    Ok(())
}

/// Returns whether siblings lie at this depth.
fn has_siblings_at<const STACK: usize>(siblings: &ArrayVec<Sibling, STACK>, depth: usize) -> bool
    ensures yes { result ≡ true → NoneAt depth (newest_first siblings.now.items) → ⊥ }
    ensures no { result ≡ false → NoneAt depth (newest_first siblings.now.items) }
{
    match siblings.last() {
        Some(top) => top.depth == depth,
        None => false,
    }
}

/// Goes from the text of what lies under `depth + 1` bytes of the key to what lies under `depth`.
fn close_level<K: ZeroTrieWithOptions, const STACK: usize>(
    text: &mut Text<'_>,
    siblings: &mut ArrayVec<Sibling, STACK>,
    key: &[u8],
    depth: usize,
) -> Result<(), ZeroTrieBuildError>
    requires kind { IsAscii K.kind }
    requires within { depth < length key.now }
    requires ascii { All (λ b. b < 128) key.now }
    ensures keeps { OnOk result (Keeps text.old text.new) }
    ensures closed { OnOk result ((listed : Pairs)
        → IsClosedTo K.kind STACK key.now (suc depth) text.old siblings.old.items listed
        → IsClosedTo K.kind STACK key.now depth text.new siblings.new.items listed) }
    ensures refused { IfErr result (λ e. (listed : Pairs)
        → IsClosedTo K.kind STACK key.now (suc depth) text.old siblings.old.items listed
        → RefusedAt K.kind STACK key.now depth listed e) }
{
    if has_siblings_at(siblings, depth) {
        set_aside(text, siblings, key[depth], depth)?;
        return join(text, siblings, depth);
    }
    text.put(key[depth]);
    Ok(())
}

/// Goes from the text of the whole key to what lies under its first `stop` bytes.
fn close_to<K: ZeroTrieWithOptions, const STACK: usize>(
    text: &mut Text<'_>,
    siblings: &mut ArrayVec<Sibling, STACK>,
    key: &[u8],
    stop: usize,
) -> Result<(), ZeroTrieBuildError>
    requires kind { IsAscii K.kind }
    requires within { stop ≤ length key.now }
    requires ascii { All (λ b. b < 128) key.now }
    ensures keeps { OnOk result (Keeps text.old text.new) }
    ensures closed { OnOk result ((listed : Pairs)
        → IsClosedTo K.kind STACK key.now (length key.now) text.old siblings.old.items listed
        → IsClosedTo K.kind STACK key.now stop text.new siblings.new.items listed) }
    ensures refused { IfErr result (λ e. (listed : Pairs)
        → IsClosedTo K.kind STACK key.now (length key.now) text.old siblings.old.items listed
        → RefusedFrom K.kind STACK key.now stop listed e) }
{
    let mut depth = key.len();
    while depth > stop {
        depth -= 1;
        close_level::<K, STACK>(text, siblings, key, depth)?;
    }
    Ok(())
}

/// Closes the levels below the common prefix with the previous key, and saves what is built as a
/// sibling, unless the previous key is that prefix.
fn go_before<K: ZeroTrieWithOptions, const STACK: usize>(
    text: &mut Text<'_>,
    siblings: &mut ArrayVec<Sibling, STACK>,
    before: &[u8],
    key: &[u8],
) -> Result<(), ZeroTrieBuildError>
    requires kind { IsAscii K.kind }
    requires sorted { Before K.kind before.now key.now }
    requires ascii { All (λ b. b < 128) key.now }
    ensures keeps { OnOk result (Keeps text.old text.new) }
    ensures waits { OnOk result ((listed : Pairs)
        → IsClosedTo K.kind STACK key.now (length key.now) text.old siblings.old.items listed
        → IsReady K.kind STACK before.now text.new siblings.new.items listed) }
    ensures refused { IfErr result (λ e. (listed : Pairs)
        → IsClosedTo K.kind STACK key.now (length key.now) text.old siblings.old.items listed
        → RefusedBefore K.kind STACK before.now listed e) }
{
    let common = common_front_len(before, key);
    if common == before.len() {
        return close_to::<K, STACK>(text, siblings, key, common);
    }
    close_to::<K, STACK>(text, siblings, key, common + 1)?;
    set_aside(text, siblings, key[common], common)
}

/// Adds the item of this number, after which all items are added.
fn add<K: ZeroTrieWithOptions, const STACK: usize>(
    text: &mut Text<'_>,
    siblings: &mut ArrayVec<Sibling, STACK>,
    items: ByteSliceWithIndices<'_>,
    index: usize,
) -> Result<(), ZeroTrieBuildError>
    requires kind { IsAscii K.kind }
    requires within { index < length (pairs items) }
    requires sorted { Ordered K.kind (pairs items) }
    requires ascii { All (λ e. All (λ b. b < 128) e.0) (pairs items) }
    requires built { BuiltFrom K.kind STACK (suc index) (pairs items) text.old siblings.old.items }
    ensures keeps { OnOk result (Keeps text.old text.new) }
    ensures built { OnOk result
        (BuiltFrom K.kind STACK index (pairs items.entry) text.new siblings.new.items) }
    ensures refused { IfErr result (IsRefusedBuild K.kind STACK (pairs items.entry)) }
{
    let (key, value) = items.get(index);
    text.put_value(value);
    if index == 0 {
        return close_to::<K, STACK>(text, siblings, key, 0);
    }
    let (before, _) = items.get(index - 1);
    go_before::<K, STACK>(text, siblings, before, key)
}

/// Writes the text of the trie of the items at the end of the buffer, if it has room for it, and
/// returns how many bytes the text has, or the greatest number if it has more. What lies before the
/// text stays.
pub(crate) fn build_text<K: ZeroTrieWithOptions, const STACK: usize>(
    buffer: &mut [u8],
    items: ByteSliceWithIndices<'_>,
) -> Result<usize, ZeroTrieBuildError>
    requires kind { IsAscii K.kind }
    requires capacity { STACK < 2 ^ 58 }
    requires sorted { Ordered K.kind (pairs items) }
    requires ascii { All (λ e. All (λ b. b < 128) e.0) (pairs items) }
    ensures grown { IfOk result (λ len. (bytes : List ℕ) × EndsIn buffer.new len bytes
        × Lists K.kind bytes (pairs items.entry)) }
    ensures before { IfOk result (λ len. (n : ℕ) → n + len ≤ length buffer.old
        → take n buffer.new ≡ take n buffer.old) }
    ensures within { IfOk result (λ len. stack_of K.kind (pairs items.entry) ≤ STACK) }
    ensures refused { IfErr result (IsRefusedBuild K.kind STACK (pairs items.entry)) }
{
    let mut text = Text {
        buffer,
        len: 0,
        front: 0,
    };
    let mut siblings: ArrayVec<Sibling, STACK> = ArrayVec::new();
    let mut index = items.len();
    while index > 0 {
        index -= 1;
        add::<K, STACK>(&mut text, &mut siblings, items, index)?;
    }
    Ok(text.len)
}
