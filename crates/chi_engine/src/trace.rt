//! The trace of requests that were executed one after another, as a value of JSON.

ghost use Rattle.std.specs.Prelude.{◌≡◌, OnOk, IfOk, map};
ghost use Rattle.std.specs.Option.{option_map};
ghost use Rattle.serde_json.specs.View.{members_view, view};
ghost use Rattle.chi_engine.specs.Trace.{line_data, lines_data, taken_at, trace_data, with_reply};

use chi_fields::{Request, refusal_name};
use chi_history::Line;
use chi_json::{put_bytes, put_number, put_request, put_text, put_words};
use chi_lanes::Reply;
use chi_script::Script;
use serde_json::{Map, Value, put};
use std::alloc::{AllocError, Global};

// The members of a request that was taken and answered at a time.
#[tactic(auto, unfolding(crate::specs::Trace::taken_at))]
fn taken_at(alloc: Global, time: u64, request: &Request) -> Result<Map<String, Value>, AllocError>
    ensures { IfOk result (λ members. members_view members.entries ≡ taken_at time request.now) }
{
    let mut members = Map::new(alloc);
    put_request(alloc, &mut members, request)?;
    put_number(alloc, &mut members, "start", time)?;
    put_number(alloc, &mut members, "end", time)?;
    Ok(members)
}

// What was answered.
#[tactic(auto, unfolding(crate::specs::Trace::with_reply))]
pub(crate) fn put_reply(
    alloc: Global,
    members: &mut Map<String, Value>,
    reply: &Reply,
) -> Result<(), AllocError>
    ensures { OnOk result (members_view members.new.entries ≡ with_reply reply.now (members_view members.old.entries)) }
{
    match reply {
        Reply::Comp => put_text(alloc, members, "reply", "comp"),
        Reply::CompData(lanes) => put_bytes(alloc, members, "reply", lanes),
    }
}

// The request of a line, taken at a time, where it stands in a trace.
#[tactic(auto, unfolding(crate::specs::Trace::line_data))]
fn line_value(alloc: Global, time: u64, line: &Line) -> Result<Option<Value>, AllocError>
    ensures { IfOk result (λ value. option_map view value ≡ line_data time line.now) }
{
    match line {
        Line::Completed(request, reply) => {
            let mut members = taken_at(alloc, time, request)?;
            put_reply(alloc, &mut members, reply)?;
            Ok(Some(Value::Object(members)))
        }
        Line::Refused(request, refusal) => {
            let mut members = taken_at(alloc, time, request)?;
            put_text(alloc, &mut members, "refused", refusal_name(*refusal))?;
            Ok(Some(Value::Object(members)))
        }
        Line::Retried(_) => Ok(None),
    }
}

// The requests of lines, each taken at the time that is its line's place.
fn line_values(alloc: Global, lines: &[Line]) -> Result<Vec<Value>, AllocError>
    ensures { IfOk result (λ values. map view values.items ≡ lines_data lines.now) }
{
    let mut values = Vec::with_capacity(alloc, lines.len())?;
    for (place, line) in lines.iter().enumerate() {
        let request = line_value(alloc, place as u64, line)?;
        if let Some(value) = request {
            values.push(value)?;
        }
    }
    Ok(values)
}

// The trace of a script's run, by its lines and the words that it left.
#[tactic(auto, unfolding(crate::specs::Trace::trace_data, chi_json::specs::Object::with_array))]
pub(crate) fn trace_value(
    alloc: Global,
    script: &Script,
    words: &[u64],
    lines: &[Line],
) -> Result<Value, AllocError>
    ensures { IfOk result (λ value. view value ≡ trace_data script.now.region script.now.image words.now lines.now) }
{
    let region = script.region();
    let mut members = Map::new(alloc);
    put_number(alloc, &mut members, "base", region.base())?;
    put_number(
        alloc,
        &mut members,
        "granules",
        u64::from(region.granules()),
    )?;
    put_words(alloc, &mut members, "image", script.image())?;
    put_words(alloc, &mut members, "final", words)?;
    let requests = line_values(alloc, lines)?;
    put(&mut members, alloc, "requests", Value::Array(requests))?;
    Ok(Value::Object(members))
}
