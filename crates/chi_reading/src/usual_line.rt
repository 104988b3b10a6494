//! The usual line of events, which is read with no allocation.

ghost use Rattle.std.specs.Prelude.{◌≡◌, IfSome, List, Ok, Some, ℕ};
ghost use Rattle.chi_json.specs.Flat.{flat_data};
ghost use Rattle.chi_json.specs.Values.{json_value};
ghost use Rattle.chi_reading.specs.EventText.{event_text};

use crate::event_line::stated_event;
use chi_events::Event;
use chi_json::{FlatObject, Scratch, flat_object};

/// The event that an object on the line with this number tells, where the object has no fault.
#[tactic(auto, using(crate::proofs::NamedEvents::no_other_kind), unfolding(crate::specs::EventText::event_text, crate::specs::EventText::object_event))]
fn flat_event(number_of_line: u64, object: &FlatObject<'_>) -> Option<Event>
    ensures { IfSome result (λ event. (line : List ℕ) → json_value line ≡ Some (flat_data object.now) → event_text number_of_line line ≡ Ok event) }
{
    let Ok((kind, event)) = stated_event(number_of_line, object) else {
        return None;
    };
    if object.has_only(kind.members()) {
        Some(event)
    } else {
        None
    }
}

/// The event that the line with this number tells, where it is a usual line: one that a `FlatObject` keeps, and that has no fault.
/// Of other lines nothing is said. No memory is taken but that of `scratch`.
///
/// ```
/// let event = usual_event(&mut scratch, 1, b"{\"time\":70,\"event\":\"dropped\",\"id\":3}")?;
/// ```
pub fn usual_event(scratch: &mut Scratch, number_of_line: u64, line: &[u8]) -> Option<Event>
    ensures { IfSome result (λ event. event_text number_of_line line.now ≡ Ok event) }
{
    match flat_object(line, scratch) {
        Some(object) => flat_event(number_of_line, &object),
        None => None,
    }
}
