//! Finds the part of a JSON value that is no pair.

ghost use Rattle.std.specs.Prelude.{◌≡◌, ◌↔◌, ◌⊎◌, None, IsSome, option_map};
ghost use Rattle.std.specs.Option.{is_some};
ghost use Rattle.serde_json.specs.Find.{as_array, as_object};
ghost use Rattle.serde_json.specs.View.{view, items_view, members_view};
ghost use Rattle.zerotrie_any.specs.Json.{byte_in, each, key_in, pair_in, pairs_in};
ghost use Rattle.zerotrie_any.specs.JsonCalls.{first_unread, first_member, IsFirstNoPair};

use crate::json::reading::{byte_of, number_of};
use serde_json::{Map, Value};
use thiserror::Error;

/// A member or an item of a JSON value that is no pair.
#[derive(Clone, Copy, PartialEq, Eq, Debug, Error)]
pub enum NoPair<'a> {
    /// Of an object the member with this name: its value is not written as a whole number from 0
    /// to 2^64 - 1.
    #[error("the value of {0:?} is no whole number from 0 to 18446744073709551615")]
    Member(&'a str),
    /// Of a list the item with this number, from 1 on: it is no list of a key and such a number.
    #[error("item {0} of the list is no pair of a key and a whole number from 0 to 18446744073709551615")]
    Item(usize),
}

/// Returns whether each value is a byte.
fn are_bytes(items: &[Value]) -> bool
    ensures { result ≡ is_some (each byte_in (items_view items.now)) }
{
    for item in items {
        if byte_of(item).is_none() {
            return false;
        }
    }
    true
}

/// Returns whether a value is a key: a string, or a list of bytes.
fn is_key(value: &Value) -> bool
    ensures { result ≡ is_some (key_in (view value.now)) }
{
    match value.as_array() {
        Some(items) => are_bytes(items.as_slice()),
        None => value.as_str().is_some(),
    }
}

/// Returns whether a value is a pair, which is a list of exactly two.
fn is_pair(value: &Value) -> bool
    ensures { result ≡ is_some (pair_in (view value.now)) }
{
    let Some(items) = value.as_array() else {
        return false;
    };
    if items.len() != 2 {
        return false;
    }
    is_key(&items[0]) && number_of(&items[1]).is_some()
}

/// Returns the number of the first item that is no pair, from 1 on.
fn bad_item(items: &[Value]) -> Option<usize>
    ensures { result ≡ first_unread pair_in (items_view items.now) }
{
    for (index, item) in items.iter().enumerate() {
        if !is_pair(item) {
            return Some(index + 1);
        }
    }
    None
}

/// Returns the name of the first member whose value is no whole number.
fn bad_member(members: &Map<String, Value>) -> Option<&str>
    ensures { option_map (λ name. name.now) result
        ≡ first_member (members_view members.now.entries) }
{
    for (name, value) in members {
        if number_of(value).is_none() {
            return Some(name.as_str());
        }
    }
    None
}

/// Returns the first member of an object, in the order of the names, or the first item of a list
/// that is no pair.
///
/// ```
/// let value = Value::from_str(rt.alloc(), r#"[["ad",22],["adef"]]"#)?;
/// assert!(rt; why_json_refused(&value) == Some(NoPair::Item(2)));
/// ```
///
/// The result is `None` if each of them is a pair, or if the value is neither an object nor a list.
/// So if a call that reads the value returns `JsonError::Shape`, this returns why.
#[tactic(auto, using(crate::proofs::JsonLemmas::none_exactly))]
pub fn why_json_refused(value: &Value) -> Option<NoPair<'_>>
    ensures first { IsFirstNoPair (view value.now) result }
    ensures none { result ≡ None ↔ (IsSome (pairs_in (view value.now))
        ⊎ (as_object (view value.now) ≡ None) × (as_array (view value.now) ≡ None)) }
{
    if let Some(members) = value.as_object() {
        return Some(NoPair::Member(bad_member(members)?));
    }
    let items = value.as_array()?;
    Some(NoPair::Item(bad_item(items.as_slice())?))
}
