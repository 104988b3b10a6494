//! The next value of a text, objects that are read with no allocation, and a text that is one of them.

ghost use Rattle.std.specs.Prelude.{◌≡◌, ◌<◌, [], ◌∷◌, ℕ, List, IfSome, IsTrue, Some, length, slice_index};
ghost use Rattle.std.specs.Char.{is_ascii_digit};
ghost use Rattle.json.specs.Json.{items, members, value};
ghost use Rattle.json.specs.Reads.{token_of};
ghost use Rattle.json.specs.Token.{Token as SpecToken, begin_array, begin_object};
ghost use Rattle.serde_json.specs.Data.{unsigned};
ghost use Rattle.serde_json.specs.Read.{converted, number_of, of_items, of_json, of_members};
ghost use Rattle.serde_json.specs.View.{items_view, view};
ghost use Rattle.chi_json.specs.Datum.{datum_data};
ghost use Rattle.chi_json.specs.Flat.{flat_data, flat_members};
ghost use Rattle.chi_json.specs.Values.{json_value};

use crate::datum::Datum;
use crate::flat::FlatObject;
pub use json::Scratch;
use json::{Reader, Token};
use serde_json::{Map, Value, put};
use std::alloc::Global;

/// Whether a text begins with a digit.
fn begins_with_digit(text: &[u8]) -> bool
    ensures { result ≡ is_ascii_digit (slice_index text.now 0) }
{
    match text.first() {
        Some(byte) => byte.is_ascii_digit(),
        None => false,
    }
}

/// The number that a text of JSON writes, where it has digits alone and is below 2^64.
fn whole(text: &str) -> Option<u64>
    ensures { IfSome result (λ n. number_of text.now ≡ Some (unsigned n)) }
{
    if !begins_with_digit(text.as_bytes()) {
        return None;
    }
    match u64::from_str_radix(text, 10) {
        Ok(number) => Some(number),
        Err(_) => None,
    }
}

/// The value that a token is, where it is neither a list nor an object, nor another number.
#[inline(always)]
fn datum_of(token: Token<'_>) -> Option<Datum<'_>>
    ensures { IfSome result (λ d. (depth : ℕ) (rest : List SpecToken) → converted of_json (value depth (token_of token.entry ∷ rest)) ≡ Some (datum_data d, rest)) }
{
    match token {
        Token::Null => Some(Datum::Null),
        Token::Bool(is) => Some(Datum::Bool(is)),
        Token::Number(text) => match whole(text) {
            Some(number) => Some(Datum::Whole(number)),
            None => None,
        },
        Token::String(text) => Some(Datum::Text(text)),
        _ => None,
    }
}

/// The next value, where it is neither a list nor an object, nor another number.
#[inline(always)]
fn datum<'a>(reader: &mut Reader<'a>) -> Option<Datum<'a>>
    ensures value { IfSome result (λ d. (depth : ℕ) → converted of_json (value depth reader.old) ≡ Some (datum_data d, reader.new)) }
    ensures shorter { IfSome result (λ d. length reader.new < length reader.old) }
{
    let token = reader.next()?;
    datum_of(token)
}

/// Adds the members up to the end of their object, and answers whether all were added.
fn add_members<'a>(reader: &mut Reader<'a>, object: &mut FlatObject<'a>) -> bool
    ensures value { IsTrue result → (depth : ℕ) → converted (λ ms. of_members ms (flat_members object.old)) (members (value depth) (length reader.old) reader.old) ≡ Some (flat_members object.new, reader.new) }
    ensures shorter { IsTrue result → length reader.new < length reader.old }
{
    'members: while !object.members.is_full() {
        let Ok(next) = reader.next_key() else {
            return false;
        };
        let Some(name) = next else {
            return true;
        };
        let Some(value) = datum(reader) else {
            return false;
        };
        object.members.push((name, value));
    }
    false
}

/// Whether the text goes on with an object, whose members then follow.
///
/// ```
/// let is_object = begins_object(&mut reader);
/// ```
#[inline(always)]
pub fn begins_object(reader: &mut Reader<'_>) -> bool
    ensures { IsTrue result → reader.old ≡ begin_object ∷ reader.new }
{
    match reader.next() {
        Some(token) => matches!(token, Token::BeginObject),
        None => false,
    }
}

/// Whether it goes on with a list, whose elements then follow.
///
/// ```
/// let is_list = begins_list(&mut reader);
/// ```
pub fn begins_list(reader: &mut Reader<'_>) -> bool
    ensures { IsTrue result → reader.old ≡ begin_array ∷ reader.new }
{
    match reader.next() {
        Some(token) => matches!(token, Token::BeginArray),
        None => false,
    }
}

/// Puts the members of the object that comes next into one that has none yet, and answers whether it did.
#[inline(always)]
fn read_object<'a>(reader: &mut Reader<'a>, object: &mut FlatObject<'a>) -> bool
    ensures value { IsTrue result → object.old.members.items ≡ [] → (depth : ℕ) → 0 < depth → converted of_json (value depth reader.old) ≡ Some (flat_data object.new, reader.new) }
    ensures shorter { IsTrue result → length reader.new < length reader.old }
{
    begins_object(reader) && add_members(reader, object)
}

/// The next value of a text, where it is an object that a `FlatObject` keeps. Of other values nothing is said, and what then follows
/// is not to be read.
///
/// ```
/// let object = next_object(&mut reader)?;
/// ```
#[inline(always)]
pub fn next_object<'a>(reader: &mut Reader<'a>) -> Option<FlatObject<'a>>
    ensures value { IfSome result (λ flat. (depth : ℕ) → 0 < depth → converted of_json (value depth reader.old) ≡ Some (flat_data flat, reader.new)) }
    ensures shorter { IfSome result (λ flat. length reader.new < length reader.old) }
{
    let mut object = FlatObject::none();
    if read_object(reader, &mut object) {
        Some(object)
    } else {
        None
    }
}

/// The value of a datum that was read. `None` is answered where memory ends.
fn owned(alloc: Global, datum: &Datum<'_>) -> Option<Value>
    ensures { IfSome result (λ v. view v ≡ datum_data datum.now) }
{
    match *datum {
        Datum::Null => Some(Value::Null),
        Datum::Bool(is) => Some(Value::Bool(is)),
        Datum::Whole(number) => Some(Value::from(number)),
        Datum::Text(text) => match String::from_str(alloc, text) {
            Ok(text) => Some(Value::String(text)),
            Err(_) => None,
        },
        Datum::Value(_) => None,
    }
}

/// The object of some members. `None` is answered where memory ends.
fn owned_object(alloc: Global, object: &FlatObject<'_>) -> Option<Value>
    ensures { IfSome result (λ v. view v ≡ flat_data object.now) }
{
    let mut members = Map::new(alloc);
    'members: for member in object.members.as_slice() {
        let Some(value) = owned(alloc, &member.1) else {
            return None;
        };
        let Ok(()) = put(&mut members, alloc, member.0, value) else {
            return None;
        };
    }
    Some(Value::Object(members))
}

/// The elements up to the end of their list, where each is an object that a `FlatObject` keeps.
fn read_objects(alloc: Global, reader: &mut Reader<'_>) -> Option<Vec<Value>>
    ensures value { IfSome result (λ list. (depth : ℕ) → 0 < depth → converted of_items (items (value depth) (length reader.old) reader.old) ≡ Some (items_view list.items, reader.new)) }
    ensures shorter { IfSome result (λ list. length reader.new < length reader.old) }
{
    let mut list = Vec::new(alloc);
    'elements: while !reader.take_end_array() {
        let object = next_object(reader)?;
        let value = owned_object(alloc, &object)?;
        let Ok(()) = list.push(value) else {
            return None;
        };
    }
    Some(list)
}

/// The next value of a text, where it is null, true or false, a whole number below 2^64, a text, or a list of objects that a
/// `FlatObject` keeps. Of other values nothing is said, nor is it where memory ends, and what then follows is not to be read.
///
/// ```
/// let base = next_value(alloc, &mut reader)?.as_u64();
/// ```
pub fn next_value(alloc: Global, reader: &mut Reader<'_>) -> Option<Value>
    ensures value { IfSome result (λ v. (depth : ℕ) → 1 < depth → converted of_json (value depth reader.old) ≡ Some (view v, reader.new)) }
    ensures shorter { IfSome result (λ v. length reader.new < length reader.old) }
{
    let token = reader.next()?;
    match token {
        Token::BeginArray => {
            let list = read_objects(alloc, reader)?;
            Some(Value::Array(list))
        }
        other => {
            let datum = datum_of(other)?;
            owned(alloc, &datum)
        }
    }
}

/// The object that a text in UTF-8 is, where it is one that a `FlatObject` keeps. Of other texts nothing is said, nor is it where
/// memory ends.
///
/// ```
/// let object = flat_object(b"{\"time\":70}", &mut scratch)?;
/// ```
pub fn flat_object<'a>(text: &'a [u8], scratch: &'a mut Scratch) -> Option<FlatObject<'a>>
    ensures { IfSome result (λ flat. json_value text.now ≡ Some (flat_data flat)) }
{
    let Ok(text) = std::str::from_utf8(text) else {
        return None;
    };
    let Ok(mut reader) = Reader::new(text, scratch) else {
        return None;
    };
    let mut object = FlatObject::none();
    if read_object(&mut reader, &mut object) && reader.next().is_none() {
        Some(object)
    } else {
        None
    }
}
