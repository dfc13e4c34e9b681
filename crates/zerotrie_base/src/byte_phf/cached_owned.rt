//! Caches of tables.

ghost use Rattle.std.specs.Prelude.{◌≡◌, ℕ, List, [], IfOk, OnOk, OnErr, IfErr, IsOk, IsSome, IsNone, IfNone, Some, is_some, nat_eq};
ghost use Rattle.std.specs.Borrow.{sem};
ghost use Rattle.std.specs.List.{IsDistinct};
ghost use Rattle.zerotrie_base.specs.Hashes.{IsPerfectTable};
ghost use Rattle.zerotrie_base.specs.Refusals.{IsTableRefusal};
ghost use Rattle.zerotrie_base.specs.Caches.{Tables, AllPerfect, find, put};
ghost use Rattle.zerotrie_base.specs.byte_phf.Held.{held};

use super::{PerfectByteHashMap, table_of};
use crate::error::ZeroTrieBuildError;
use std::alloc::{Allocator, Global};
use std::collections::BTreeMap;
use std::marker::Model;

/// A cache of tables by their keys.
///
/// ```
/// let mut cache = PerfectByteHashMapCacheOwned::new_empty(rt.alloc());
/// let keys = Vec::from_slice(rt.alloc(), b"aceg")?;
/// assert!(rt; are_distinct(keys.as_slice()));
/// assert_eq!(rt; cache.try_get_or_insert(keys)?.get(b'e'), Some(0));
/// ```
///
/// The same keys in another order have a table of their own.
#[derive(Debug, Drop)]
pub struct PerfectByteHashMapCacheOwned<A: Allocator = Global> {
    alloc: A,
    tables: BTreeMap<Vec<u8, A>, Vec<u8, A>, A>,
}

impl<A: Allocator> Model for PerfectByteHashMapCacheOwned<A> {
    ghost Value = { Tables };

    ghost view = { λ cache. held cache.tables };

    ghost invariant = { λ cache. AllPerfect (held cache.tables) };
}

impl<A: Allocator + Copy> PerfectByteHashMapCacheOwned<A> {
    ghost use Rattle.zerotrie_base.specs.CacheCalls.{ends_with};

    /// Returns an empty cache. Does not allocate.
    pub fn new_empty(alloc: A) -> Self
        ensures { result ≡ [] }
    {
        PerfectByteHashMapCacheOwned {
            alloc,
            tables: BTreeMap::new(alloc),
        }
    }

    /// Returns the table of the keys. Builds and adds it if the cache has none of these keys in
    /// this order; otherwise allocates nothing and changes nothing.
    ///
    /// The keys must be distinct, which [`super::are_distinct`] tests. If the table has to be
    /// built, the errors are those of [`PerfectByteHashMap::try_new`]; after an error the cache is
    /// unchanged.
    pub fn try_get_or_insert(
        &mut self,
        keys: Vec<u8>,
    ) -> Result<PerfectByteHashMap<&[u8]>, ZeroTrieBuildError>
        requires { IsDistinct nat_eq keys.items }
        ensures* after { sem 𝓛 (ends_with A.row A.Allocator self.entry keys.items result) }
        ensures table { IfOk result (λ table. IsPerfectTable keys.items table.store.now) }
        ensures succeeds { IsSome (find keys.items self.old) → IsOk result }
        ensures refused { IfErr result (IsTableRefusal keys.items) }
    {
        self.hold(keys.as_slice())?;
        Ok(self.held_table(keys.as_slice()))
    }

    /// Returns whether the cache has a table of these keys.
    fn has(&self, keys: &[u8]) -> bool
        ensures { result ≡ is_some (find keys.now self.now) }
    {
        self.tables.contains_key(keys)
    }

    fn add(&mut self, keys: &[u8]) -> Result<(), ZeroTrieBuildError>
        requires { IsDistinct nat_eq keys.now }
        ensures ok { OnOk result ((table : List ℕ) × (self.new ≡ put keys.now table self.old)) }
        ensures err { OnErr result (self.new ≡ self.old) }
        ensures refused { IfErr result (IsTableRefusal keys.now) }
    {
        let table = table_of(self.alloc, keys)?;
        let copy = Vec::from_slice(self.alloc, keys)?;
        self.tables.insert(copy, table)?;
        Ok(())
    }

    /// Adds the table of these keys if it is not there.
    #[tactic(auto, using(crate::proofs::CacheLemmas::there_after))]
    fn hold(&mut self, keys: &[u8]) -> Result<(), ZeroTrieBuildError>
        requires { IsDistinct nat_eq keys.now }
        ensures held { IsSome (find keys.now self.old) → IsOk result × (self.new ≡ self.old) }
        ensures new { IfNone (find keys.now self.old)
            (OnOk result ((table : List ℕ) × (self.new ≡ put keys.now table self.old))) }
        ensures err { OnErr result (self.new ≡ self.old) }
        ensures refused { IfErr result (IsTableRefusal keys.now) }
        ensures there { OnOk result (IsSome (find keys.now self.new)) }
    {
        if self.has(keys) {
            return Ok(());
        }
        self.add(keys)
    }

    /// Returns the table of these keys, which must be there.
    fn held_table(&self, keys: &[u8]) -> PerfectByteHashMap<&[u8]>
        requires { IsSome (find keys.now self.now) }
        ensures found { find keys.now self.now ≡ Some result.store.now }
        ensures perfect { IsPerfectTable keys.now result.store.now }
    {
        match self.tables.get(keys) {
            Some(table) => PerfectByteHashMap::from_bytes(table.as_slice()),
            None => unreachable!(),
        }
    }
}
