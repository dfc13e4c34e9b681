//! A trie of the kind that was chosen.

ghost use Rattle.std.specs.Prelude.{◌≡◌, ◌≢◌, ◌↔◌, ◌++◌, [], IfOk, OnOk, IfSome, IsSome, string_bytes};
ghost use Rattle.zerotrie.specs.Items.{pairs_of};
ghost use Rattle.zerotrie.specs.Maps.{Map, Pairs, look};
ghost use Rattle.zerotrie.specs.Texts.{Lists, Means};
ghost use Rattle.zerotrie.specs.Routes.{any_order, IsBuild};
ghost use Rattle.zerotrie.specs.Walks.{IsWalk};
ghost use Rattle.zerotrie_session.specs.Commands.{kind_of};
ghost use Rattle.zerotrie_session.specs.Answers.{in_order};
ghost use Rattle.zerotrie_session.specs.Replies.{list_lines};
ghost use Rattle.zerotrie_session.specs.answer.Tries.{trie_kind, trie_choice, trie_bytes};
ghost use Rattle.zerotrie_session.specs.declared.command.Choice.TheVariants.{Auto};

use crate::command::Choice;
use crate::reply::{write_pairs, write_sorted};
use std::alloc::{AllocError, Global};
use zerotrie::{
    CursorAnswer, CursorOp, Simple, Trie, TrieKind, ZeroAsciiIgnoreCaseTrie, ZeroTrie,
    ZeroTrieBuildError, ZeroTrieExtendedCapacity, ZeroTriePerfectHash, ZeroTrieSimpleAscii,
};

/// A trie of the kind that was chosen.
#[derive(Debug, Drop)]
pub enum ChosenTrie {
    Simple(ZeroTrieSimpleAscii<Vec<u8>>),
    Ignore(ZeroAsciiIgnoreCaseTrie<Vec<u8>>),
    Hash(ZeroTriePerfectHash<Vec<u8>>),
    Ext(ZeroTrieExtendedCapacity<Vec<u8>>),
    Auto(ZeroTrie<Vec<u8>>),
}

impl ChosenTrie {
    /// Returns the trie without pairs.
    pub fn empty(alloc: Global, choice: Choice) -> Self
        ensures choice { trie_choice result ≡ choice }
        ensures kind { trie_kind result ≡ kind_of choice [] }
        ensures bytes { trie_bytes result ≡ [] }
    {
        let store = Vec::new(alloc);
        match choice {
            Choice::Named(TrieKind::Simple) => {
                ChosenTrie::Simple(ZeroTrieSimpleAscii::from_store(store))
            }
            Choice::Named(TrieKind::Ignore) => {
                ChosenTrie::Ignore(ZeroAsciiIgnoreCaseTrie::from_store(store))
            }
            Choice::Named(TrieKind::Hash) => {
                ChosenTrie::Hash(ZeroTriePerfectHash::from_store(store))
            }
            Choice::Named(TrieKind::Ext) => {
                ChosenTrie::Ext(ZeroTrieExtendedCapacity::from_store(store))
            }
            Choice::Auto => ChosenTrie::Auto(ZeroTrie::of_kind::<Simple>(store)),
        }
    }

    /// Builds the trie of the pairs.
    pub fn build(
        alloc: Global,
        choice: Choice,
        pairs: &[(&[u8], usize)],
    ) -> Result<Self, ZeroTrieBuildError>
        ensures choice { IfOk result (λ trie. trie_choice trie ≡ choice) }
        ensures kind { IfOk result (λ trie. trie_kind trie ≡ kind_of choice (pairs_of pairs.now)) }
        ensures build { let added = pairs_of pairs.now in
            IsBuild any_order (kind_of choice added) trie_bytes added result }
    {
        let pairs = pairs.iter().copied();
        match choice {
            Choice::Named(TrieKind::Simple) => {
                ZeroTrieSimpleAscii::try_from_iter(alloc, pairs).map(ChosenTrie::Simple)
            }
            Choice::Named(TrieKind::Ignore) => {
                ZeroAsciiIgnoreCaseTrie::try_from_iter(alloc, pairs).map(ChosenTrie::Ignore)
            }
            Choice::Named(TrieKind::Hash) => {
                ZeroTriePerfectHash::try_from_iter(alloc, pairs).map(ChosenTrie::Hash)
            }
            Choice::Named(TrieKind::Ext) => {
                ZeroTrieExtendedCapacity::try_from_iter(alloc, pairs).map(ChosenTrie::Ext)
            }
            Choice::Auto => ZeroTrie::try_from_iter(alloc, pairs).map(ChosenTrie::Auto),
        }
    }

    /// Returns the bytes of the trie.
    pub fn as_bytes(&self) -> &[u8]
        ensures { result.now ≡ trie_bytes self.now }
    {
        match self {
            ChosenTrie::Simple(trie) => trie.as_bytes(),
            ChosenTrie::Ignore(trie) => trie.as_bytes(),
            ChosenTrie::Hash(trie) => trie.as_bytes(),
            ChosenTrie::Ext(trie) => trie.as_bytes(),
            ChosenTrie::Auto(trie) => trie.as_bytes(),
        }
    }

    /// Returns the number of the key.
    pub fn get(&self, key: &[u8]) -> Option<usize>
        ensures { let kind = trie_kind self.now in
            (m : Map) → Means kind (trie_bytes self.now) m → result ≡ look kind m key.now }
    {
        match self {
            ChosenTrie::Simple(trie) => trie.get(key),
            ChosenTrie::Ignore(trie) => trie.get(key),
            ChosenTrie::Hash(trie) => trie.get(key),
            ChosenTrie::Ext(trie) => trie.get(key),
            ChosenTrie::Auto(trie) => trie.get(key),
        }
    }

    /// Returns the results of a walk, or `None` if the kind is `auto`.
    pub fn walk(
        &self,
        alloc: Global,
        ops: &[CursorOp],
    ) -> Result<Option<Vec<CursorAnswer>>, AllocError>
        ensures named { IfOk result (λ r. IsSome r ↔ (trie_choice self.now ≢ Auto)) }
        ensures walk { IfOk result (λ r. IfSome r (λ answers.
            IsWalk (trie_kind self.now) (trie_bytes self.now) ops.now answers.items)) }
    {
        let answers = match self {
            ChosenTrie::Simple(trie) => trie.walk(alloc, ops)?,
            ChosenTrie::Ignore(trie) => trie.walk(alloc, ops)?,
            ChosenTrie::Hash(trie) => trie.walk(alloc, ops)?,
            ChosenTrie::Ext(trie) => trie.walk(alloc, ops)?,
            ChosenTrie::Auto(_) => return Ok(None),
        };
        Ok(Some(answers))
    }

    /// Writes the pairs of the trie, in the order of its nodes, or of the bytes of their keys if
    /// the kind is `auto`.
    pub fn write_list(&self, alloc: Global, output: &mut String) -> Result<(), AllocError>
        ensures { OnOk result ((pairs : Pairs)
            → Lists (trie_kind self.now) (trie_bytes self.now) pairs
            → string_bytes output.new
            ≡ string_bytes output.old ++ list_lines (in_order (trie_choice self.now) pairs)) }
    {
        match self {
            ChosenTrie::Simple(trie) => write_pairs(alloc, trie, output),
            ChosenTrie::Ignore(trie) => write_pairs(alloc, trie, output),
            ChosenTrie::Hash(trie) => write_pairs(alloc, trie, output),
            ChosenTrie::Ext(trie) => write_pairs(alloc, trie, output),
            ChosenTrie::Auto(trie) => {
                let Ok(map) = trie.to_btreemap(alloc) else {
                    return Err(AllocError);
                };
                write_sorted(&map, output)
            }
        }
    }
}
