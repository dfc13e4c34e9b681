//! The offsets of a branch. Their bytes are in blocks: the highest bytes of all offsets, then the
//! next bytes, and so on.

ghost use Rattle.std.specs.Prelude.{◌≡◌, ◌+◌, ◌-◌, ◌*◌, ◌<◌, ◌≤◌, length, take, drop};
ghost use Rattle.zerotrie_base.specs.Nodes.{number_from, targets_behind, begin_of, end_of};

/// Reads an offset of up to three bytes, one from each block. The last one is read first, since it
/// is beyond the others: if it is in the table, so are they.
#[inline(always)]
pub(crate) fn short_offset_at(table: &[u8], place: usize, count: usize, width: usize) -> usize
    requires place { place + (width - 1) * count < length table.now }
    requires width { (1 ≤ width) × (width ≤ 3) }
    ensures { result ≡ number_from 0 width count place table.now }
{
    if width == 1 {
        return table[place] as usize;
    }
    if width == 2 {
        let low = table[count + place] as usize;
        return table[place] as usize * 256 + low;
    }
    let low = table[2 * count + place] as usize;
    (table[place] as usize * 256 + table[count + place] as usize) * 256 + low
}

/// Like `offset_at`, for any width. Not inlined: few tries have offsets of more than three bytes.
#[inline(never)]
fn long_offset_at(table: &[u8], place: usize, count: usize, width: usize) -> usize
    requires place { place < count }
    requires width { (1 ≤ width) × (width ≤ 8) }
    requires len { length table.now ≡ width * count }
    ensures { result ≡ number_from 0 width count place table.now }
{
    let mut value = 0;
    let mut rest = table;
    for _block in 0..width {
        value = value * 256 + rest[place] as usize;
        let (_, below) = rest.split_at(count);
        rest = below;
    }
    value
}

/// Reads an offset, the highest byte first, one from each block.
#[inline(always)]
pub(crate) fn offset_at(table: &[u8], place: usize, count: usize, width: usize) -> usize
    requires place { place < count }
    requires width { (1 ≤ width) × (width ≤ 8) }
    requires len { length table.now ≡ width * count }
    ensures { result ≡ number_from 0 width count place table.now }
{
    if width <= 3 {
        short_offset_at(table, place, count, width)
    } else {
        long_offset_at(table, place, count, width)
    }
}

/// Returns the offsets and the targets of a branch, out of all bytes from its edges on.
#[inline(always)]
pub(crate) fn offsets_and_targets(behind: &[u8], edges: usize, width: usize) -> (&[u8], &[u8])
    requires some { 1 ≤ edges }
    requires whole { edges + width * (edges - 1) ≤ length behind.now }
    ensures offsets { result.0.now ≡ take (width * (edges - 1)) (drop edges behind.now) }
    ensures len { length result.0.now ≡ width * (edges - 1) }
    ensures targets { result.1.now ≡ targets_behind edges width behind.now }
{
    let (_, body) = behind.split_at(edges);
    body.split_at(width * (edges - 1))
}

/// Returns where the target of an edge begins among the targets, by the offset before it.
#[inline(always)]
pub(crate) fn begin_at(behind: &[u8], edges: usize, width: usize, index: usize) -> usize
    requires index { index < edges }
    requires width { (1 ≤ width) × (width ≤ 8) }
    requires whole { edges + width * (edges - 1) ≤ length behind.now }
    ensures { result ≡ begin_of edges width behind.now index }
{
    if index == 0 {
        return 0;
    }
    let (table, _) = offsets_and_targets(behind, edges, width);
    offset_at(table, index - 1, edges - 1, width)
}

/// Returns where the target of an edge ends, by the next offset; the last one ends with the bytes.
#[inline(always)]
pub(crate) fn end_at(behind: &[u8], edges: usize, width: usize, index: usize) -> usize
    requires index { index < edges }
    requires width { (1 ≤ width) × (width ≤ 8) }
    requires whole { edges + width * (edges - 1) ≤ length behind.now }
    ensures { result ≡ end_of edges width behind.now index }
{
    let (table, targets) = offsets_and_targets(behind, edges, width);
    if index == edges - 1 {
        return targets.len();
    }
    offset_at(table, index, edges - 1, width)
}
