//! The text of a script.

ghost use Rattle.std.specs.Prelude.{◌≡◌, ◌-◌, ◌*◌, ◌^◌, ◌≤◌, All, Ok, IfOk, IfSome, length, map, string_bytes};
ghost use Rattle.std.specs.Option.{option_map};
ghost use Rattle.serde_json.specs.View.{view};
ghost use Rattle.chi_json.specs.Object.{IsReadBack};
ghost use Rattle.chi_script.specs.Script.{IsWritable, script};
ghost use Rattle.chi_stimulus.specs.Object.{IsSmall, image_words, request_data, script_data};

use chi_fields::laws::region_is_lawful;
use chi_fields::{Region, Request};
use chi_json::{put_bytes, put_number, put_request};
use serde_json::{Map, Value, put};
use std::alloc::{AllocError, Global};

/// What fields hold is within the bounds of their types, and a data packet is read as it was written.
#[tactic(auto, using(chi_json::proofs::ObjectLemmas::bytes_read))]
fn fields_are_writable(txn: u8, opcode: u8, addr: u64, be: u16, lanes: [u8; 16])
    ensures txn { txn ≤ 255 }
    ensures opcode { opcode ≤ 255 }
    ensures addr { addr ≤ 2 ^ 64 - 1 }
    ensures be { be ≤ 65535 }
    ensures lanes { IsReadBack 16 lanes }
{}

/// A request as an object.
#[tactic(auto, unfolding(crate::specs::Object::request_data))]
fn request_value(alloc: Global, request: &Request) -> Result<Value, AllocError>
    requires { IsSmall request.now }
    ensures value { IfOk result (λ v. view v ≡ request_data request.now) }
    ensures writable { IfOk result (λ _. IsWritable request.now) }
{
    fields_are_writable(
        request.txn,
        request.opcode,
        request.addr,
        request.be,
        request.lanes,
    );
    let mut members = Map::new(alloc);
    put_request(alloc, &mut members, request)?;
    Ok(Value::Object(members))
}

/// Requests as an array.
#[tactic(auto, using(crate::proofs::Reading::more_writable))]
fn requests_value(alloc: Global, requests: &[Request]) -> Result<Vec<Value>, AllocError>
    requires { All IsSmall requests.now }
    ensures values { IfOk result (λ values. map view values.items ≡ map request_data requests.now) }
    ensures writable { IfOk result (λ _. All IsWritable requests.now) }
{
    let mut values = Vec::with_capacity(alloc, requests.len())?;
    for request in requests {
        values.push(request_value(alloc, request)?)?;
    }
    Ok(values)
}

/// A script as an object.
#[tactic(auto, unfolding(crate::specs::Object::script_data, chi_json::specs::Object::with_array))]
fn script_value(
    alloc: Global,
    region: &Region,
    image: Option<&[u8]>,
    requests: &[Request],
) -> Result<Value, AllocError>
    requires { All IsSmall requests.now }
    ensures value { IfOk result (λ v. view v ≡ script_data region.now (option_map (λ bytes. bytes.now) image.entry) requests.now) }
    ensures image { IfOk result (λ _. IfSome image.entry (λ bytes. IsReadBack (length bytes.now) bytes.now)) }
    ensures writable { IfOk result (λ _. All IsWritable requests.now) }
{
    let mut members = Map::new(alloc);
    put_number(alloc, &mut members, "base", region.base())?;
    put_number(
        alloc,
        &mut members,
        "granules",
        u64::from(region.granules()),
    )?;
    if let Some(bytes) = image {
        put_bytes(alloc, &mut members, "image", bytes)?;
    }
    let requests = requests_value(alloc, requests)?;
    put(&mut members, alloc, "requests", Value::Array(requests))?;
    Ok(Value::Object(members))
}

/// The text of a script, of a memory that opens with these bytes, or with zeros where none are told.
#[tactic(auto, using(crate::proofs::Reading::script_reads, crate::proofs::Reading::script_depth))]
pub(crate) fn script_text(
    alloc: Global,
    region: &Region,
    image: Option<&[u8]>,
    requests: &[Request],
) -> Result<String, AllocError>
    requires small { All IsSmall requests.now }
    requires few { length requests.now ≤ 4096 }
    requires image { IfSome image (λ bytes. length bytes.now ≡ 8 * region.now.granules) }
    ensures { IfOk result (λ text. script (string_bytes text) 7 ≡ Ok (record {
      region = region.now;
      image = image_words region.now.granules (option_map (λ bytes. bytes.now) image.entry);
      requests = requests.now;
    })) }
{
    region_is_lawful(region);
    let value = script_value(alloc, region, image, requests)?;
    let text = value.to_string(alloc)?;
    // That the bytes are UTF-8 is known here once they are looked at.
    let _bytes = text.as_str().as_bytes();
    Ok(text)
}
