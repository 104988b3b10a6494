//! What a line states, where it is to state a flit or a point.

ghost use Rattle.std.specs.Prelude.{◌≡◌, IfOk, IfSome, Ok, option_map};
ghost use Rattle.serde_json.specs.Find.{as_object};
ghost use Rattle.serde_json.specs.View.{members_view, view};
ghost use Rattle.chi_json.specs.Flat.{flat_data, flat_members};
ghost use Rattle.chi_watch_text.specs.LineTold.{names_channel, stated_by, stated_in, stated_of, time_stated};

use crate::line_format::LineFormat;
use crate::stated::Stated;
use chi_flit_text::{FlitLineFault, names_point, read_flit, read_point, usual_flit, usual_point};
use chi_json::{FlatObject, JsonObject, Scratch, flat_object};
use chi_reading::line_value;
use serde_json::{Map, Value};
use std::alloc::{AllocError, Global};

/// Whether an object names a channel, so that it is to state a flit or a point.
fn names_channel<O: JsonObject>(object: &O) -> bool
    ensures { result ≡ names_channel (O.data_of object.now) }
{
    object.get("channel").is_some()
}

/// The flit or the point that an object states, or its fault. `members` are those of the object.
fn stated_of(
    number: u64,
    object: &Value,
    members: &Map<String, Value>,
) -> Result<Stated, FlitLineFault>
    ensures { result ≡ stated_of number (view object.now) (members_view members.now.entries) }
{
    if names_point(object) {
        Ok(Stated::Point(read_point(object, members)?))
    } else {
        Ok(Stated::Flit(read_flit(number, object, members)?))
    }
}

/// The same, where it is to state one.
fn stated_by(number: u64, object: &Value) -> Option<Result<Stated, FlitLineFault>>
    ensures { result ≡ stated_by number (view object.now) (as_object (view object.now)) }
{
    let members = object.as_object()?;
    if names_channel(object) {
        Some(stated_of(number, object, members))
    } else {
        None
    }
}

/// The flit or the point that an object states, where the object has no fault.
fn flat_stated(number: u64, object: &FlatObject<'_>) -> Option<Stated>
    ensures { IfSome result (λ stated. stated_of number (flat_data object.now) (flat_members object.now) ≡ Ok stated) }
{
    if !names_point(object) {
        return Some(Stated::Flit(usual_flit(number, object)?));
    }
    Some(Stated::Point(usual_point(object)?))
}

/// What a usual line states: a flit or a point, or neither where it names no channel.
fn usual_stated(scratch: &mut Scratch, line: &[u8], number: u64) -> Option<Option<Stated>>
    ensures { IfSome result (λ stated. stated_in number line.now ≡ option_map Ok stated) }
{
    let Some(object) = flat_object(line, scratch) else {
        return None;
    };
    if !names_channel(&object) {
        return Some(None);
    }
    let stated = flat_stated(number, &object)?;
    Some(Some(stated))
}

/// What the line with this number states, for a line of any kind.
fn any_stated(
    alloc: Global,
    line: &[u8],
    number: u64,
) -> Result<Option<Result<Stated, FlitLineFault>>, AllocError>
    ensures { IfOk result (λ stated. stated ≡ stated_in number line.now) }
{
    match line_value(alloc, number, line)? {
        Some(object) => Ok(stated_by(number, &object)),
        None => Ok(None),
    }
}

/// What the line with this number states, or its fault, where it is to state a flit or a point.
pub(crate) fn stated_in(
    alloc: Global,
    scratch: &mut Scratch,
    line: &[u8],
    number: u64,
) -> Result<Option<Result<Stated, FlitLineFault>>, AllocError>
    ensures { IfOk result (λ stated. stated ≡ stated_in number line.now) }
{
    match usual_stated(scratch, line, number) {
        Some(Some(stated)) => Ok(Some(Ok(stated))),
        Some(None) => Ok(None),
        None => any_stated(alloc, line, number),
    }
}

/// The time of the flit that the line with this number states, if it states one. Where requests have points there is none.
pub(crate) fn time_stated(
    alloc: Global,
    format: LineFormat,
    line: &[u8],
    number: u64,
) -> Result<Option<u64>, AllocError>
    ensures { IfOk result (λ time. time ≡ time_stated format number line.now) }
{
    match format {
        LineFormat::Events | LineFormat::PointedFlits { errors: _ } => Ok(None),
        LineFormat::Flits { errors: _ } => match any_stated(alloc, line, number)? {
            Some(Ok(Stated::Flit(flit))) => Ok(Some(flit.time)),
            _ => Ok(None),
        },
    }
}
