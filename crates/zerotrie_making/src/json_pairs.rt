//! The pairs in a JSON value.

ghost use Rattle.std.specs.Prelude.{◌≡◌, ◌++◌, ◌∷◌, [], Some, IfOk, IfErr, option_map};
ghost use Rattle.csv.specs.Reading.{strip_bom};
ghost use Rattle.json.specs.Value.{value_view, items_view, members_view};
ghost use Rattle.json.specs.Json.{document};
ghost use Rattle.json.specs.Find.{as_array, as_object};
ghost use Rattle.zerotrie_any.specs.JsonCalls.{IsReading};
ghost use Rattle.zerotrie_making.specs.Json.{number_in, byte_in, key_in, pair_in, pairs_in, each, member_pairs};
ghost use Rattle.zerotrie_making.specs.Sources.{NoValue, IsPairs, NoPairs};
ghost use Rattle.zerotrie_making.specs.Unread.{first_unread, first_member, IsFirst};
ghost use Rattle.zerotrie_making.specs.declared.plan.Source.TheVariants.{Json};

use crate::error::{MakeError, NoPair};
use crate::json_places::{not_json, why_no_json};
use json::{Error, MAX_DEPTH, Reader, Scratch, Value};
use std::alloc::{AllocError, Global};
use zerotrie_any::JsonError;
use zerotrie_lines::{Table, parse_number, without_mark};

/// Returns the items, if the value is a list.
fn items_of<'v, 'a>(value: &'v Value<'a>) -> Option<&'v [Value<'a>]>
    ensures { option_map (λ items. items_view items.now) result ≡ as_array (value_view value.now) }
{
    match value {
        Value::Array(items) => Some(items.as_slice()),
        _ => None,
    }
}

/// Returns the members, if the value is an object.
fn members_of<'v, 'a>(value: &'v Value<'a>) -> Option<&'v [(&'a str, Value<'a>)]>
    ensures { option_map (λ members. members_view members.now) result
        ≡ as_object (value_view value.now) }
{
    match value {
        Value::Object(members) => Some(members.as_slice()),
        _ => None,
    }
}

/// Returns the whole number in a value.
pub(crate) fn number_of(value: &Value<'_>) -> Option<usize>
    ensures { result ≡ number_in (value_view value.now) }
{
    parse_number(value.as_number()?.as_bytes())
}

/// Returns the byte in a value.
fn byte_of(value: &Value<'_>) -> Option<u8>
    ensures { result ≡ byte_in (value_view value.now) }
{
    let number = number_of(value)?;
    if number < 256 {
        Some(number as u8)
    } else {
        None
    }
}

/// Returns the bytes in the items of a list.
fn bytes_of(alloc: Global, items: &[Value<'_>]) -> Result<Vec<u8>, JsonError>
    ensures { IsReading (λ bytes. bytes.items) (each byte_in (items_view items.now)) result }
{
    let mut bytes = Vec::new(alloc);
    for item in items {
        let Some(byte) = byte_of(item) else {
            return Err(JsonError::Shape);
        };
        bytes.push(byte)?;
    }
    Ok(bytes)
}

/// Returns the key in a value: a text, or a list of bytes.
pub(crate) fn key_of(alloc: Global, value: &Value<'_>) -> Result<Vec<u8>, JsonError>
    ensures { IsReading (λ key. key.items) (key_in (value_view value.now)) result }
{
    if let Some(text) = value.as_str() {
        return Ok(Vec::from_slice(alloc, text.as_bytes())?);
    }
    match items_of(value) {
        Some(items) => bytes_of(alloc, items),
        None => Err(JsonError::Shape),
    }
}

/// Returns the pair in a value, which is a list of exactly two.
pub(crate) fn pair_of(alloc: Global, value: &Value<'_>) -> Result<(Vec<u8>, usize), JsonError>
    ensures { IsReading (λ e. (e.0.items, e.1)) (pair_in (value_view value.now)) result }
{
    let Some(items) = items_of(value) else {
        return Err(JsonError::Shape);
    };
    if items.len() != 2 {
        return Err(JsonError::Shape);
    }
    let Some(number) = number_of(&items[1]) else {
        return Err(JsonError::Shape);
    };
    let key = key_of(alloc, &items[0])?;
    Ok((key, number))
}

/// Returns the pairs in the items of a list.
fn pairs_of_list(alloc: Global, items: &[Value<'_>]) -> Result<Table, JsonError>
    ensures { IsReading (λ table. table) (each pair_in (items_view items.now)) result }
{
    let mut table = Table::new(alloc);
    for item in items {
        let (key, value) = pair_of(alloc, item)?;
        table.push(key.as_slice(), value)?;
    }
    Ok(table)
}

/// Returns the pairs in the members of an object, in their order.
fn pairs_of_members(alloc: Global, members: &[(&str, Value<'_>)]) -> Result<Table, JsonError>
    ensures { IsReading (λ table. table) (member_pairs (members_view members.now)) result }
{
    let mut table = Table::new(alloc);
    for (key, value) in members {
        let Some(number) = number_of(value) else {
            return Err(JsonError::Shape);
        };
        table.push(key.as_bytes(), number)?;
    }
    Ok(table)
}

/// Returns the pairs in a value.
fn pairs_of(alloc: Global, value: &Value<'_>) -> Result<Table, JsonError>
    ensures { IsReading (λ table. table) (pairs_in (value_view value.now)) result }
{
    if let Some(members) = members_of(value) {
        return pairs_of_members(alloc, members);
    }
    match items_of(value) {
        Some(items) => pairs_of_list(alloc, items),
        None => Err(JsonError::Shape),
    }
}

/// Returns the number of the first item that is no pair, from 1 on.
fn first_item(alloc: Global, items: &[Value<'_>]) -> Result<Option<usize>, AllocError>
    ensures { IfOk result (λ number. number ≡ first_unread pair_in (items_view items.now)) }
{
    for (index, item) in items.iter().enumerate() {
        match pair_of(alloc, item) {
            Ok(_) => {}
            Err(JsonError::Shape) => return Ok(Some(index + 1)),
            Err(_) => return Err(AllocError),
        }
    }
    Ok(None)
}

/// Returns the name of the first member whose value is no whole number.
fn first_member<'a>(members: &[(&'a str, Value<'a>)]) -> Option<&'a str>
    ensures { option_map (λ key. key.now) result ≡ first_member (members_view members.now) }
{
    for (key, value) in members {
        if number_of(value).is_none() {
            return Some(*key);
        }
    }
    None
}

/// Returns the first member or item of a value that is no pair. `None` if the value has none.
fn first_bad(alloc: Global, value: &Value<'_>) -> Result<Option<NoPair>, AllocError>
    ensures { IfOk result (IsFirst (value_view value.now)) }
{
    if let Some(members) = members_of(value) {
        return match first_member(members) {
            Some(key) => Ok(Some(NoPair::Member(Vec::from_slice(alloc, key.as_bytes())?))),
            None => Ok(None),
        };
    }
    match items_of(value) {
        Some(items) => Ok(first_item(alloc, items)?.map(NoPair::Item)),
        None => Ok(None),
    }
}

/// Reads the JSON value of a text.
pub(crate) fn value_of<'a>(
    alloc: Global,
    text: &'a str,
    scratch: &'a mut Scratch,
) -> Result<Value<'a>, MakeError>
    ensures ok { IfOk result (λ v. document text.now ≡ Some (value_view v)) }
    ensures err { IfErr result (λ e. NoValue text.now e) }
{
    let mut reader = Reader::new(text, scratch)?;
    match Value::read(alloc, &mut reader, MAX_DEPTH) {
        Ok(value) => {
            if reader.next().is_some() {
                return Err(why_no_json(alloc, text)?);
            }
            Ok(value)
        }
        Err(Error::OutOfMemory) => Err(MakeError::OutOfMemory),
        Err(_) => Err(why_no_json(alloc, text)?),
    }
}

/// Reads the pairs in the JSON value of an input.
pub(crate) fn read_json(alloc: Global, input: &[u8]) -> Result<Table, MakeError>
    ensures ok { IfOk result (λ table. IsPairs Json input.now table) }
    ensures err { IfErr result (λ e. NoPairs Json input.now e) }
{
    let bytes = without_mark(input);
    let text = match str::from_utf8(bytes) {
        Ok(text) => text,
        Err(error) => return Err(not_json(bytes, error.valid_up_to())),
    };
    let mut scratch = Scratch::new(alloc);
    let value = value_of(alloc, text, &mut scratch)?;
    match pairs_of(alloc, &value) {
        Ok(table) => Ok(table),
        Err(JsonError::Shape) => Err(match first_bad(alloc, &value)? {
            Some(bad) => MakeError::NotPair(bad),
            None => MakeError::NotPairs,
        }),
        Err(_) => Err(MakeError::OutOfMemory),
    }
}
