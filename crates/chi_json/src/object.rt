//! Objects of JSON, made member by member.

ghost use Rattle.std.specs.Prelude.{◌≡◌, OnOk, IfOk, length};
ghost use Rattle.serde_json.specs.View.{members_view};
ghost use Rattle.chi_json.specs.Object.{IsReadBack, with_bytes, with_number, with_request, with_text, word_bytes};

use chi_fields::Request;
use serde_json::{Map, Value, put};
use std::alloc::{AllocError, Global};

/// Puts a number under this name.
///
/// ```
/// put_number(alloc, &mut members, "base", region.base())?;
/// ```
#[tactic(auto, unfolding(crate::specs::Object::with_number))]
pub fn put_number(
    alloc: Global,
    members: &mut Map<String, Value>,
    name: &str,
    number: u64,
) -> Result<(), AllocError>
    ensures { OnOk result (members_view members.new.entries ≡ with_number name.now number (members_view members.old.entries)) }
{
    put(members, alloc, name, Value::from(number))
}

/// Puts a text under this name.
///
/// ```
/// put_text(alloc, &mut members, "reply", "comp")?;
/// ```
#[tactic(auto, unfolding(crate::specs::Object::with_text))]
pub fn put_text(
    alloc: Global,
    members: &mut Map<String, Value>,
    name: &str,
    text: &str,
) -> Result<(), AllocError>
    ensures { OnOk result (members_view members.new.entries ≡ with_text name.now text.now (members_view members.old.entries)) }
{
    let text = String::from_str(alloc, text)?;
    put(members, alloc, name, Value::String(text))
}

/// Puts a text of two hex digits for each byte under this name.
///
/// ```
/// put_bytes(alloc, &mut members, "lanes", &request.lanes)?;
/// ```
#[tactic(auto, using(crate::proofs::ObjectLemmas::bytes_read), unfolding(crate::specs::Object::with_bytes))]
pub fn put_bytes(
    alloc: Global,
    members: &mut Map<String, Value>,
    name: &str,
    bytes: &[u8],
) -> Result<(), AllocError>
    ensures read { OnOk result (IsReadBack (length bytes.now) bytes.now) }
    ensures members { OnOk result (members_view members.new.entries ≡ with_bytes name.now bytes.now (members_view members.old.entries)) }
{
    let text = hex::encode(alloc, bytes)?;
    put(members, alloc, name, Value::String(text))
}

// The bytes of granules in address order, by their words.
fn word_bytes(alloc: Global, words: &[u64]) -> Result<Vec<u8>, AllocError>
    ensures { IfOk result (λ bytes. bytes.items ≡ word_bytes words.now) }
{
    let mut bytes = Vec::new(alloc);
    for word in words {
        bytes.extend_from_slice(&word.to_le_bytes())?;
    }
    Ok(bytes)
}

/// Puts the bytes of granules in address order under this name, as a text of 16 hex digits for each. Byte `k` of a word is its
/// bits `8k` to `8k + 7`.
///
/// ```
/// put_words(alloc, &mut members, "image", script.image())?;
/// ```
pub fn put_words(
    alloc: Global,
    members: &mut Map<String, Value>,
    name: &str,
    words: &[u64],
) -> Result<(), AllocError>
    ensures { OnOk result (members_view members.new.entries ≡ with_bytes name.now (word_bytes words.now) (members_view members.old.entries)) }
{
    let bytes = word_bytes(alloc, words)?;
    put_bytes(alloc, members, name, &bytes)
}

/// Puts the members of a request: `src`, `txn`, `op`, `size`, `addr`, `endian`, `be` and `lanes`.
///
/// ```
/// put_request(alloc, &mut members, &request)?;
/// ```
#[tactic(auto, unfolding(crate::specs::Object::with_request))]
pub fn put_request(
    alloc: Global,
    members: &mut Map<String, Value>,
    request: &Request,
) -> Result<(), AllocError>
    ensures { OnOk result (members_view members.new.entries ≡ with_request request.now (members_view members.old.entries)) }
{
    put_number(alloc, members, "src", u64::from(request.src))?;
    put_number(alloc, members, "txn", u64::from(request.txn))?;
    put_number(alloc, members, "op", u64::from(request.opcode))?;
    put_number(alloc, members, "size", u64::from(request.size))?;
    put_number(alloc, members, "addr", request.addr)?;
    put_number(alloc, members, "endian", u64::from(request.endian))?;
    put_number(alloc, members, "be", u64::from(request.be))?;
    put_bytes(alloc, members, "lanes", &request.lanes)
}
