//! What a text states: its value, or the bytes of its hex digits.

ghost use Rattle.std.specs.Prelude.{◌≡◌, IfOk};
ghost use Rattle.std.specs.Option.{option_map};
ghost use Rattle.serde_json.specs.View.{view};
ghost use Rattle.chi_json.specs.Datum.{datum_data};
ghost use Rattle.chi_json.specs.Members.{member_by};
ghost use Rattle.chi_json.specs.Values.{hex_bytes, json_value};

use crate::datum::{Datum, JsonObject};
use crate::member::{MemberFault, Named, stated};
use hex::FromHex;
use serde_json::Value;
use std::alloc::{AllocError, Global};

/// The value of a text that is one JSON text in UTF-8. `None` is answered where it is none or nests more than 127 deep.
///
/// ```
/// let value = json(alloc, b"[]")?; // an empty array
/// ```
#[tactic(auto, unfolding(crate::specs::Values::json_value))]
pub fn json(alloc: Global, text: &[u8]) -> Result<Option<Value>, AllocError>
    ensures { IfOk result (λ value. json_value text.now ≡ option_map (λ v. view v) value) }
{
    match Value::from_slice(alloc, text) {
        Ok(value) => Ok(Some(value)),
        Err(error) if error.is_memory() => Err(AllocError),
        Err(_) => Ok(None),
    }
}

/// The bytes of a value: a text of exactly two hex digits for each of them, in either case. `None` is answered where the value
/// is none.
///
/// ```
/// let word: [u8; 8] = hex_bytes(&value)?;
/// ```
pub fn hex_bytes<const COUNT: usize>(value: &Datum<'_>) -> Option<[u8; COUNT]>
    ensures { result ≡ hex_bytes COUNT (datum_data value.now) }
{
    let text = value.as_str()?;
    <[u8; COUNT] as FromHex>::from_hex(text).ok()
}

/// The bytes that a member of an object states: a text of exactly two hex digits for each of them, in either case.
///
/// `Missing` is answered where the object has no such member, and `BadMember` where it has another value.
///
/// ```
/// let lanes: [u8; 16] = stated_bytes(&object, Member::Lanes)?;
/// ```
pub fn stated_bytes<O: JsonObject, M: Named, const COUNT: usize>(
    object: &O,
    member: M,
) -> Result<[u8; COUNT], MemberFault<M>>
    ensures { result ≡ member_by M.name_of member (hex_bytes COUNT) (O.data_of object.now) }
{
    let value = stated(object, member)?;
    hex_bytes(&value).ok_or(MemberFault::BadMember(member))
}
