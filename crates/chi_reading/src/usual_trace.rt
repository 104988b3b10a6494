//! The usual trace, whose requests are read one after another as its text goes on.

ghost use Rattle.std.specs.Prelude.{◌≡◌, ◌<◌, IfSome, IsTrue, Ok, Some, length};
ghost use Rattle.json.specs.Json.{members, value};
ghost use Rattle.serde_json.specs.Data.{Data, Items, Members, array, no_members, object, put};
ghost use Rattle.serde_json.specs.Read.{converted, of_json, of_members};
ghost use Rattle.chi_json.specs.Values.{json_value};
ghost use Rattle.chi_reading.specs.Member.{member_name};
ghost use Rattle.chi_reading.specs.Outline.{IsOutlineOf};
ghost use Rattle.chi_reading.specs.Requests.{all_completed};
ghost use Rattle.chi_reading.specs.TraceText.{IsOf, TextValue, trace_text};

use crate::fault::MOST_OPERATIONS;
use crate::member::{Member, TRACE};
use crate::memory::memory_told;
use crate::recorded::{Recorded, in_order};
use crate::requests::{Found, add_stated};
use crate::stated::flat_stated;
use chi_fields::Region;
use chi_json::{Scratch, begins_list, begins_object, is_known, next_object, next_value};
use json::Reader;
use serde_json::{Map, Value, put};
use std::alloc::Global;

/// What came of the requests of a list, where the memory is this region or all addresses.
#[derive(Drop)]
struct Listed {
    region: Option<Region>,
    found: Found,
}

/// What the object of a trace says: its members but `requests`, and what came of these, once they are read.
#[derive(Drop)]
struct Outline {
    members: Map<String, Value>,
    requests: Option<Listed>,
}

/// The requests of the list that comes next, where none has a fault.
fn read_requests(alloc: Global, reader: &mut Reader<'_>, region: Option<Region>) -> Option<Listed>
    ensures value { IfSome result (λ listed. (ds : Items) × (converted of_json (value 126 reader.old) ≡ Some (array ds, reader.new)) × (all_completed listed.region ds ≡ Ok listed.found)) }
    ensures shorter { IfSome result (λ listed. length reader.new < length reader.old) }
{
    if !begins_list(reader) {
        return None;
    }
    let mut found = Found::none(alloc);
    let mut place = 0;
    'requests: while !reader.take_end_array() {
        if place == MOST_OPERATIONS {
            return None;
        }
        let object = next_object(reader)?;
        let stated = flat_stated(place, &object)?;
        let Ok(()) = add_stated(&mut found, place, &region, stated) else {
            return None;
        };
        place += 1;
    }
    Some(Listed { region, found })
}

/// The region that these members tell, where they tell one. It needs no clause, since requests that were read in another region than
/// that of the whole trace are not answered.
fn region_told(members: &Map<String, Value>) -> Option<Region> {
    let base = members.get(Member::Base.name())?.as_u64()?;
    let granules = members.get(Member::Granules.name())?.as_u64()?;
    let Ok(granules) = u16::try_from(granules) else {
        return None;
    };
    match Region::new(base, granules) {
        Ok(region) => Some(region),
        Err(_) => None,
    }
}

impl Outline {
    /// Takes the requests of the list that comes next, in place of those before.
    fn add_requests(&mut self, alloc: Global, reader: &mut Reader<'_>) -> bool
        ensures outline { IsTrue result → (full : Members) → IsOutlineOf full self.old → (d : Data) × (converted of_json (value 126 reader.old) ≡ Some (d, reader.new)) × IsOutlineOf (put (member_name Member.Requests) d full) self.new }
        ensures shorter { IsTrue result → length reader.new < length reader.old }
    {
        match read_requests(alloc, reader, region_told(&self.members)) {
            Some(listed) => {
                self.requests = Some(listed);
                true
            }
            None => false,
        }
    }

    /// Adds the member of this name, whose value comes next, and answers whether it did: not where a trace has no such member, nor
    /// where it is no usual value.
    fn add_member(&mut self, alloc: Global, name: &str, reader: &mut Reader<'_>) -> bool
        ensures outline { IsTrue result → (full : Members) → IsOutlineOf full self.old → (d : Data) × (converted of_json (value 126 reader.old) ≡ Some (d, reader.new)) × IsOutlineOf (put name.now d full) self.new }
        ensures shorter { IsTrue result → length reader.new < length reader.old }
    {
        if !is_known(name, &[&TRACE]) {
            return false;
        }
        if name == Member::Requests.name() {
            return self.add_requests(alloc, reader);
        }
        let Some(value) = next_value(alloc, reader) else {
            return false;
        };
        match put(&mut self.members, alloc, name, value) {
            Ok(()) => true,
            Err(_) => false,
        }
    }
}

/// The members of an object up to its end, where they are those of a usual trace.
fn read_members(alloc: Global, reader: &mut Reader<'_>) -> Option<Outline>
    ensures { IfSome result (λ o. (full : Members) × (converted (λ ms. of_members ms no_members) (members (value 126) (length reader.old) reader.old) ≡ Some (full, reader.new)) × IsOutlineOf full o) }
{
    let mut outline = Outline {
        members: Map::new(alloc),
        requests: None,
    };
    'members: loop {
        let Ok(next) = reader.next_key() else {
            return None;
        };
        let Some(name) = next else {
            return Some(outline);
        };
        if !outline.add_member(alloc, name, reader) {
            return None;
        }
    }
}

/// What a text says, where it is a usual trace.
fn outline_of(alloc: Global, text: &[u8]) -> Option<Outline>
    ensures { IfSome result (λ o. (full : Members) × (json_value text.now ≡ Some (object full)) × IsOutlineOf full o) }
{
    let Ok(text) = std::str::from_utf8(text) else {
        return None;
    };
    let mut scratch = Scratch::new(alloc);
    let Ok(mut reader) = Reader::new(text, &mut scratch) else {
        return None;
    };
    if !begins_object(&mut reader) {
        return None;
    }
    let outline = read_members(alloc, &mut reader)?;
    if reader.next().is_some() {
        return None;
    }
    Some(outline)
}

/// The trace that a text is, where it is a usual one, of which the requests can be read one after another. Of other texts nothing is
/// said, nor is it where memory ends.
pub(crate) fn usual_trace(alloc: Global, text: &[u8]) -> Option<Recorded>
    ensures { IfSome result (λ r. (t : TextValue) × (trace_text text.now ≡ Ok t) × IsOf t r) }
{
    let outline = outline_of(alloc, text)?;
    let listed = outline.requests?;
    let Ok(memory) = memory_told(alloc, &Value::Object(outline.members)) else {
        return None;
    };
    if memory.region != listed.region {
        return None;
    }
    match in_order(memory, listed.found) {
        Ok(recorded) => Some(recorded),
        Err(_) => None,
    }
}
