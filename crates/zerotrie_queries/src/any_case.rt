//! A trie that ignores case, with its keys in the case that another one has them in.

ghost use Rattle.std.specs.Prelude.{◌≡◌, ◌++◌, [], Some, IfOk, OnOk};
ghost use Rattle.std.specs.FinMap.{entries};
ghost use Rattle.zerotrie_core.specs.Items.{pairs_of};
ghost use Rattle.zerotrie_core.specs.Kinds.{kind_of};
ghost use Rattle.zerotrie_core.specs.Listings.{to_come};
ghost use Rattle.zerotrie_core.specs.Maps.{Map, Ascends, look};
ghost use Rattle.zerotrie_core.specs.Texts.{Means};
ghost use Rattle.zerotrie_core.specs.WellFormed.{IsWellFormed};
ghost use Rattle.zerotrie_sets.specs.Merges.{chosen, if_some, joined};
ghost use Rattle.zerotrie_sets.specs.Operations.{choose};
ghost use Rattle.zerotrie_sets.specs.declared.combined.Keep.TheVariants.{First};
ghost use Rattle.zerotrie_sets.specs.declared.combined.Operation.TheVariants.{Union};
ghost use Rattle.zerotrie_queries.specs.Recased.{ignore_both, looked_up, recased};

use crate::sorted::sorted_pairs;
use std::alloc::{AllocError, Global};
use zerotrie_core::{PairStream, Trie, TrieKind, TrieRef};
use zerotrie_lines::Table;
use zerotrie_sets::laws::combined_are_maps;
use zerotrie_sets::{Combined, Keep, Operation, SortedSlice};

/// Returns whether keys that differ only in the case of letters are one key to both kinds.
pub fn ignore_case(first: TrieKind, second: TrieKind) -> bool
    ensures { result ≡ ignore_both (kind_of first) (kind_of second) }
{
    matches!((first, second), (TrieKind::Ignore, TrieKind::Ignore))
}

/// Takes all pairs of a stream.
pub fn collect<S: PairStream + Drop>(alloc: Global, mut stream: S) -> Result<Table, AllocError>
    ensures { IfOk result (λ table. table ≡ (S.left stream).pairs) }
{
    let mut table = Table::new(alloc);
    while stream.advance()? {
        table.push(stream.key(), stream.value())?;
    }
    Ok(table)
}

/// Lists pairs whose keys ascend.
pub fn of_sorted<'a, 'k>(pairs: &'a [(&'k [u8], usize)]) -> SortedSlice<'a, 'k>
    requires { Ascends (pairs_of pairs.now) }
    ensures { result.left ≡ to_come (pairs_of pairs.now) }
{
    match SortedSlice::new(pairs) {
        Some(stream) => stream,
        None => unreachable!(),
    }
}

/// Returns what an operation has for a key of its first map, whose value is given, if a look-up in
/// the second one finds this.
fn value_by(operation: Operation, value: usize, found: Option<usize>) -> Option<usize>
    ensures { result ≡ choose operation (Some value) found }
{
    match operation {
        Operation::Union(Keep::First) => Some(value),
        Operation::Union(Keep::Last) => found.or(Some(value)),
        Operation::Intersection(Keep::First) => found.and(Some(value)),
        Operation::Intersection(Keep::Last) => found,
        Operation::Difference | Operation::SymmetricDifference => match found {
            None => Some(value),
            Some(_value) => None,
        },
    }
}

/// Adds a pair if the key has a value.
fn push_some(table: &mut Table, key: &[u8], value: Option<usize>) -> Result<(), AllocError>
    ensures { OnOk result (table.new ≡ table.old ++ if_some key.now value []) }
{
    match value {
        Some(value) => table.push(key, value),
        None => Ok(()),
    }
}

/// Takes the keys of a stream for which an operation has a value, of theirs and of what a look-up in a
/// trie finds.
fn look_up_each<S: PairStream + Drop>(
    alloc: Global,
    operation: Operation,
    mut pairs: S,
    other: &TrieRef<'_>,
) -> Result<Table, AllocError>
    ensures { IfOk result (λ table. (n : Map)
        → Means (kind_of other.now.kind) other.now.bytes.now n
        → table ≡ looked_up operation (look (kind_of other.now.kind) n) (S.left pairs).pairs) }
{
    let mut table = Table::new(alloc);
    while pairs.advance()? {
        let value = value_by(operation, pairs.value(), other.get(pairs.key()));
        push_some(&mut table, pairs.key(), value)?;
    }
    Ok(table)
}

/// Returns the keys of a trie for which an operation has a value, of theirs and of what a look-up in
/// another trie finds, in the order of bytes.
pub fn look_up_all(
    alloc: Global,
    operation: Operation,
    trie: &TrieRef<'_>,
    other: &TrieRef<'_>,
) -> Result<Table, AllocError>
    requires trie { IsWellFormed (kind_of trie.now.kind) trie.now.bytes.now }
    requires other { IsWellFormed (kind_of other.now.kind) other.now.bytes.now }
    ensures ascends { IfOk result Ascends }
    ensures is { IfOk result (λ table. (m n : Map)
        → Means (kind_of trie.now.kind) trie.now.bytes.now m
        → Means (kind_of other.now.kind) other.now.bytes.now n
        → table ≡ looked_up operation (look (kind_of other.now.kind) n) (entries m)) }
{
    let pairs = sorted_pairs(alloc, trie)?;
    look_up_each(alloc, operation, pairs, other)
}

/// Returns the union of two tables whose keys ascend.
fn unite(alloc: Global, first: &Table, second: &Table) -> Result<Table, AllocError>
    requires first { Ascends first.now }
    requires second { Ascends second.now }
    ensures { IfOk result (λ table. table
        ≡ chosen (choose (Union First)) (joined first.now second.now)) }
{
    let ones = first.items(alloc)?;
    let twos = second.items(alloc)?;
    let one = of_sorted(ones.as_slice());
    let two = of_sorted(twos.as_slice());
    collect(
        alloc,
        Combined::new(one, two, Operation::Union(Keep::First)),
    )
}

/// Returns the pairs of a second trie in the order of bytes, with each key as the first trie has it,
/// if a look-up finds it there. The stream lists the second trie's pairs, with keys in any case.
pub fn recased<S: PairStream + Drop>(
    alloc: Global,
    first: &TrieRef<'_>,
    second: &TrieRef<'_>,
    pairs: S,
) -> Result<Table, AllocError>
    requires first { IsWellFormed (kind_of first.now.kind) first.now.bytes.now }
    requires second { IsWellFormed (kind_of second.now.kind) second.now.bytes.now }
    requires pairs { Ascends (S.left pairs).pairs }
    ensures ascends { IfOk result Ascends }
    ensures is { IfOk result (λ table. (m n : Map)
        → Means (kind_of first.now.kind) first.now.bytes.now m
        → Means (kind_of second.now.kind) second.now.bytes.now n
        → table ≡ recased (kind_of first.now.kind) (kind_of second.now.kind) m n
        (S.left pairs).pairs) }
{
    combined_are_maps();
    let found = look_up_all(alloc, Operation::Intersection(Keep::Last), first, second)?;
    let others = look_up_each(alloc, Operation::Difference, pairs, first)?;
    unite(alloc, &found, &others)
}
