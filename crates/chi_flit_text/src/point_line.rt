//! Objects that state a point each, and how one is read.

ghost use Rattle.std.specs.Prelude.{◌≡◌, IfSome, Ok};
ghost use Rattle.serde_json.specs.View.{members_view, view};
ghost use Rattle.chi_json.specs.Flat.{flat_data, flat_members};
ghost use Rattle.chi_flit_text.specs.PointText.{names_point, object_point, point_line};

use crate::fault::FlitLineFault;
use crate::flit_line::validity;
use crate::hex_member::hex_u16;
use crate::looked_at::looked_at;
use crate::member::FlitMember;
use chi_json::{FlatObject, JsonObject, MemberFault, ObjectFault, number, unknown_member};
use chi_points::Point;
use serde_json::{Map, Value};

/// The members that a point may have.
const POINT: [FlitMember; 5] = [
    FlitMember::Channel,
    FlitMember::Time,
    FlitMember::Valid,
    FlitMember::Src,
    FlitMember::Txn,
];

/// What the members of a point's object state. A number of which a digit is not known is `None`.
#[derive(Clone, Copy)]
pub(crate) struct PointLine {
    pub time: u64,
    pub src: Option<u16>,
    pub txn: Option<u16>,
    pub is_valid: bool,
}

/// Whether an object names the channel of points, so that it is to state one.
///
/// ```
/// let is_point = names_point(&object); // {"channel":"POINT",..}
/// ```
pub fn names_point<O: JsonObject>(object: &O) -> bool
    ensures { result ≡ names_point (O.data_of object.now) }
{
    match object.get(FlitMember::Channel.name()) {
        Some(value) => value.as_str() == Some("POINT"),
        None => false,
    }
}

/// What the members of an object state.
#[tactic(auto, unfolding(crate::specs::PointText::point_line))]
fn point_line<O: JsonObject>(object: &O) -> Result<PointLine, MemberFault<FlitMember>>
    ensures { result ≡ point_line (O.data_of object.now) }
{
    let time = number(object, FlitMember::Time, u64::MAX)?;
    let src = hex_u16(object, FlitMember::Src, 0xffff)?;
    let txn = hex_u16(object, FlitMember::Txn, 0xffff)?;
    let is_valid = validity(object)?;
    Ok(PointLine {
        time,
        src,
        txn,
        is_valid,
    })
}

/// The point that an object states, or its first fault. `members` are those of the object.
///
/// The members are those of a flit: `time`, `src` and `txn`, which are looked at always, and `valid`, which may be left out. The
/// faults' order is that of `time`, `src`, `txn`, `valid`, members that a point does not have, and digits that are not known.
///
/// ```
/// let point = read_point(&object, object.as_object()?)?; // {"channel":"POINT","time":17,"src":"03","txn":"04"}
/// ```
#[tactic(auto, unfolding(crate::specs::PointText::object_point))]
pub fn read_point(object: &Value, members: &Map<String, Value>) -> Result<Point, FlitLineFault>
    ensures { result ≡ object_point (view object.now) (members_view members.now.entries) }
{
    let line = match point_line(object) {
        Ok(line) => line,
        Err(fault) => return Err(FlitLineFault::of_member(object, fault)),
    };
    if !line.is_valid {
        return Err(FlitLineFault::UnknownValid);
    }
    if let Some(name) = unknown_member(members, &[&POINT]) {
        return Err(FlitLineFault::Object(ObjectFault::UnknownMember(name)));
    }
    let src = looked_at(true, FlitMember::Src, 0, line.src)?;
    let txn = looked_at(true, FlitMember::Txn, 0, line.txn)?;
    Ok(Point {
        time: line.time,
        src,
        txn,
    })
}

/// The point that an object states, where the object has no fault. Where it has one nothing is said.
///
/// ```
/// let point = usual_point(&object)?; // {"channel":"POINT","time":17,"src":"03","txn":"04"}
/// ```
#[tactic(auto, unfolding(crate::specs::PointText::object_point))]
pub fn usual_point(object: &FlatObject<'_>) -> Option<Point>
    ensures { IfSome result (λ point. object_point (flat_data object.now) (flat_members object.now) ≡ Ok point) }
{
    let Ok(line) = point_line(object) else {
        return None;
    };
    if !line.is_valid || !object.has_only(&[&POINT]) {
        return None;
    }
    match (line.src, line.txn) {
        (Some(src), Some(txn)) => Some(Point {
            time: line.time,
            src,
            txn,
        }),
        _ => None,
    }
}
