//! A transcript as a value of JSON.

ghost use Rattle.std.specs.Prelude.{◌≡◌, IfOk, map};
ghost use Rattle.serde_json.specs.Data.{object};
ghost use Rattle.serde_json.specs.View.{members_view, view};
ghost use Rattle.chi_engine.specs.TranscriptJson.{line_members, line_objects, named, transcript_json};

use crate::trace::put_reply;
use chi_fields::{Region, Request, op_name, refusal_name};
use chi_history::Line;
use chi_json::{put_number, put_request, put_text, put_words};
use serde_json::{Map, Value, put};
use std::alloc::{AllocError, Global};

// The members of a request, and its opcode's name.
#[tactic(auto, unfolding(crate::specs::TranscriptJson::named))]
fn named(alloc: Global, request: &Request) -> Result<Map<String, Value>, AllocError>
    ensures { IfOk result (λ members. members_view members.entries ≡ named request.now) }
{
    let mut members = Map::new(alloc);
    put_request(alloc, &mut members, request)?;
    put_text(alloc, &mut members, "name", op_name(request.opcode))?;
    Ok(members)
}

// A line as an object.
#[tactic(auto, unfolding(crate::specs::TranscriptJson::line_members))]
fn line_object(alloc: Global, line: &Line) -> Result<Value, AllocError>
    ensures { IfOk result (λ value. view value ≡ object (line_members line.now)) }
{
    match line {
        Line::Completed(request, reply) => {
            let mut members = named(alloc, request)?;
            put_reply(alloc, &mut members, reply)?;
            Ok(Value::Object(members))
        }
        Line::Refused(request, refusal) => {
            let mut members = named(alloc, request)?;
            put_text(alloc, &mut members, "refused", refusal_name(*refusal))?;
            Ok(Value::Object(members))
        }
        Line::Retried(request) => {
            let mut members = named(alloc, request)?;
            put(&mut members, alloc, "retry", Value::Bool(true))?;
            Ok(Value::Object(members))
        }
    }
}

// The lines as objects, in their order.
fn line_objects(alloc: Global, lines: &[Line]) -> Result<Vec<Value>, AllocError>
    ensures { IfOk result (λ values. map view values.items ≡ line_objects lines.now) }
{
    let mut values = Vec::with_capacity(alloc, lines.len())?;
    for line in lines {
        values.push(line_object(alloc, line)?)?;
    }
    Ok(values)
}

// The transcript of these lines, and of the words that they left.
#[tactic(auto, unfolding(crate::specs::TranscriptJson::transcript_json, chi_json::specs::Object::with_array))]
pub(crate) fn transcript_value(
    alloc: Global,
    region: &Region,
    words: &[u64],
    lines: &[Line],
) -> Result<Value, AllocError>
    ensures { IfOk result (λ value. view value ≡ transcript_json region.now words.now lines.now) }
{
    let mut members = Map::new(alloc);
    put_number(alloc, &mut members, "base", region.base())?;
    put_number(
        alloc,
        &mut members,
        "granules",
        u64::from(region.granules()),
    )?;
    put_words(alloc, &mut members, "final", words)?;
    let requests = line_objects(alloc, lines)?;
    put(&mut members, alloc, "requests", Value::Array(requests))?;
    Ok(Value::Object(members))
}
