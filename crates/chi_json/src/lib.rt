//! The walk over a JSON text that scripts, traces and events share, and objects that are made: the text's value, members of an
//! object, and objects that are read with no allocation.
#![tactic(auto)]

mod datum;
mod fault;
mod flat;
mod input;
mod member;
mod next;
mod object;
mod shown;
mod text;
mod unknown;
mod words;

pub use datum::{Datum, JsonObject};
pub use fault::ObjectFault;
pub use flat::FlatObject;
pub use input::{InputFault, read_input};
pub use member::{MemberFault, Named, number, stated};
pub use next::{Scratch, begins_list, begins_object, flat_object, next_object, next_value};
pub use object::{put_bytes, put_number, put_request, put_text, put_words};
pub use shown::{ShownText, ShownValue};
pub use text::{hex_bytes, json, stated_bytes};
pub use unknown::{is_known, unknown_member};
pub use words::{opening_words, stated_words};
