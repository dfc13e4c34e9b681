//! Reads the pairs in a JSON value, and builds the trie of them.

ghost use Rattle.std.specs.Prelude.{◌≡◌, IfOk};
ghost use Rattle.serde_json.specs.View.{view, items_view, members_view};
ghost use Rattle.zerotrie_core.specs.Items.{keyed};
ghost use Rattle.zerotrie_any.specs.Json.{number_in, byte_in, key_in, pair_in, pairs_in, each, member_pairs};
ghost use Rattle.zerotrie_any.specs.JsonCalls.{IsReading, HasPairs, IsBuildOfJson};
ghost use Rattle.zerotrie_any.specs.Auto.{auto_kind};
ghost use Rattle.zerotrie_any.specs.Flavors.{flavor_kind};

use crate::json::JsonError;
use crate::routes::bytes_from_iter;
use crate::trie::ZeroTrie;
use serde_json::{Map, Value};
use std::alloc::Global;
use zerotrie_core::ZeroTrieWithOptions;

/// Pairs that own their keys.
type OwnedPairs = Vec<(Vec<u8>, usize)>;

/// Returns the whole number in a value.
pub(crate) fn number_of(value: &Value) -> Option<usize>
    ensures { result ≡ number_in (view value.now) }
{
    usize::try_from(value.as_u64()?).ok()
}

/// Returns the byte in a value.
pub(crate) fn byte_of(value: &Value) -> Option<u8>
    ensures { result ≡ byte_in (view value.now) }
{
    let number = value.as_u64()?;
    if number < 256 {
        Some(number as u8)
    } else {
        None
    }
}

/// Returns the bytes in the items of a list.
fn bytes_of(alloc: Global, items: &[Value]) -> Result<Vec<u8>, JsonError>
    ensures { IsReading (λ bytes. bytes.items) (each byte_in (items_view items.now)) result }
{
    let mut bytes = Vec::new(alloc);
    for item in items {
        let Some(byte) = byte_of(item) else {
            return Err(JsonError::Shape);
        };
        bytes.push(byte)?;
    }
    Ok(bytes)
}

/// Returns the key in a value: a string, or a list of bytes.
fn key_of(alloc: Global, value: &Value) -> Result<Vec<u8>, JsonError>
    ensures { IsReading (λ key. key.items) (key_in (view value.now)) result }
{
    if let Some(text) = value.as_str() {
        return Ok(Vec::from_slice(alloc, text.as_bytes())?);
    }
    match value.as_array() {
        Some(items) => bytes_of(alloc, items.as_slice()),
        None => Err(JsonError::Shape),
    }
}

/// Returns the pair in a value, which is a list of exactly two.
fn pair_of(alloc: Global, value: &Value) -> Result<(Vec<u8>, usize), JsonError>
    ensures { IsReading (λ e. (e.0.items, e.1)) (pair_in (view value.now)) result }
{
    let Some(items) = value.as_array() else {
        return Err(JsonError::Shape);
    };
    if items.len() != 2 {
        return Err(JsonError::Shape);
    }
    let Some(number) = number_of(&items[1]) else {
        return Err(JsonError::Shape);
    };
    let key = key_of(alloc, &items[0])?;
    Ok((key, number))
}

/// Returns the pairs in the items of a list.
fn pairs_of_list(alloc: Global, items: &[Value]) -> Result<OwnedPairs, JsonError>
    ensures { IsReading (λ pairs. keyed (λ key. key.items) pairs.items)
        (each pair_in (items_view items.now)) result }
{
    let mut pairs = Vec::new(alloc);
    for item in items {
        pairs.push(pair_of(alloc, item)?)?;
    }
    Ok(pairs)
}

/// Returns the pairs in the members of an object, in the order of their keys.
fn pairs_of_members(alloc: Global, members: &Map<String, Value>) -> Result<OwnedPairs, JsonError>
    ensures { IsReading (λ pairs. keyed (λ key. key.items) pairs.items)
        (member_pairs (members_view members.now.entries)) result }
{
    let mut pairs = Vec::new(alloc);
    for (key, value) in members {
        let Some(number) = number_of(value) else {
            return Err(JsonError::Shape);
        };
        pairs.push((Vec::from_slice(alloc, key.as_bytes())?, number))?;
    }
    Ok(pairs)
}

/// Returns the pairs in a value.
fn pairs_of(alloc: Global, value: &Value) -> Result<OwnedPairs, JsonError>
    ensures { IsReading (λ pairs. keyed (λ key. key.items) pairs.items) (pairs_in (view value.now))
        result }
{
    if let Some(members) = value.as_object() {
        return pairs_of_members(alloc, members);
    }
    match value.as_array() {
        Some(items) => pairs_of_list(alloc, items.as_slice()),
        None => Err(JsonError::Shape),
    }
}

/// Builds the bytes of the trie of the pairs in a JSON value.
///
/// ```
/// let value = Value::from_str(rt.alloc(), r#"{"ad":22,"adef":33}"#)?;
/// let bytes = bytes_from_json::<Simple>(rt.alloc(), &value)?;
/// assert_eq!(rt; bytes.as_slice(), b"ad\x90\x06ef\x90\x11".as_slice());
///
/// for text in [r#"{"a":1.5}"#, r#"{"a":-1}"#, r#"[["a"]]"#, "1"] {
///     let value = Value::from_str(rt.alloc(), text)?;
///     assert!(rt; bytes_from_json::<Simple>(rt.alloc(), &value) == Err(JsonError::Shape));
/// }
/// ```
///
/// The value is an object from keys to numbers, or a list of pairs in any order. A pair is a list
/// of exactly two, a key and a number. A key is a string or a list of bytes. Numbers are whole,
/// from 0 to 2^64 - 1, and written without sign, point or exponent: `-0`, `1.0` and `1e2` are
/// floats.
///
/// An object has each key once: of a key that is written twice, `Value::from_str` keeps the last
/// number. A list may have a key twice, which is the error `DuplicateKey` of its build.
///
/// The error is `Shape` if the value is anything else, and `why_json_refused` then returns what is
/// no pair in it. It is `Build` with the reason if `bytes_from_iter` of the pairs returns an error,
/// and `OutOfMemory` if an allocation fails.
pub fn bytes_from_json<K: ZeroTrieWithOptions>(
    alloc: Global,
    value: &Value,
) -> Result<Vec<u8>, JsonError>
    ensures { IsBuildOfJson (λ _. K.kind) (λ bytes. bytes.items) (view value.now) result }
{
    let pairs = pairs_of(alloc, value)?;
    let bytes = bytes_from_iter::<K, Vec<u8>, OwnedPairs>(alloc, pairs)?;
    Ok(bytes)
}

impl ZeroTrie<Vec<u8>> {
    /// Builds the trie of the pairs in a JSON value, of the kind that `try_from_iter` chooses.
    ///
    /// ```
    /// let value = Value::from_str(rt.alloc(), r#"[["ad",22],[[255],3]]"#)?;
    /// let trie = ZeroTrie::try_from_json_value(rt.alloc(), &value)?;
    /// assert_eq!(rt; trie.get(b"\xFF"), Some(3));
    /// ```
    ///
    /// The value is an object from keys to numbers, or a list of pairs in any order. A pair is a
    /// list of exactly two, a key and a number. A key is a string or a list of bytes. Numbers are
    /// whole, from 0 to 2^64 - 1.
    ///
    /// The error is `Shape` if the value is anything else, and `why_json_refused` then returns what
    /// is no pair in it. It is `Build` with the reason if `try_from_iter` of the pairs returns an
    /// error, and `OutOfMemory` if an allocation fails.
    pub fn try_from_json_value(alloc: Global, value: &Value) -> Result<Self, JsonError>
        ensures kind { IfOk result (λ trie.
            HasPairs (view value.now) (λ pairs. flavor_kind trie.flavor ≡ auto_kind pairs)) }
        ensures build { IsBuildOfJson auto_kind (λ trie. trie.store.items) (view value.now) result }
    {
        let pairs = pairs_of(alloc, value)?;
        let trie = ZeroTrie::try_from_iter(alloc, pairs)?;
        Ok(trie)
    }
}
