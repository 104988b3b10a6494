//! Inputs of another kind: a trace or flits where events are wanted, events or flits where a trace is, and what gzip compressed.

ghost use Rattle.std.specs.Prelude.{◌≡◌, ◌==◌, ◌≤◌, find, length, not, position, IfOk, IfSome};
ghost use Rattle.chi_reading.specs.OtherKind.{begins_object, begins_with, first_line, is_blank, is_compressed, is_of_event, is_of_flit, is_of_trace, unread_first, unread_line, unread_text};

use crate::fault::{LineFault, TraceFault};
use crate::mark::{text_value, without_mark};
use crate::member::Member;
use chi_json::{JsonObject, ObjectFault};
use std::alloc::{AllocError, Global};

/// Whether an object has requests, as a trace does, and names no event.
pub(crate) fn is_of_trace<O: JsonObject>(object: &O) -> bool
    ensures { result ≡ is_of_trace (O.data_of object.now) }
{
    object.get(Member::Requests.name()).is_some() && object.get(Member::Event.name()).is_none()
}

/// Whether an object names an event, and has no requests.
pub(crate) fn is_of_event<O: JsonObject>(object: &O) -> bool
    ensures { result ≡ is_of_event (O.data_of object.now) }
{
    object.get(Member::Event.name()).is_some() && object.get(Member::Requests.name()).is_none()
}

/// Whether an object names the channel of a flit, and has neither an event nor requests.
pub(crate) fn is_of_flit<O: JsonObject>(object: &O) -> bool
    ensures { result ≡ is_of_flit (O.data_of object.now) }
{
    object.get("channel").is_some()
        && object.get(Member::Event.name()).is_none()
        && object.get(Member::Requests.name()).is_none()
}

/// Whether a byte is blank in JSON.
fn is_blank(byte: u8) -> bool
    ensures { result ≡ is_blank byte }
{
    byte == b' ' || byte == b'\t' || byte == b'\n' || byte == b'\r'
}

/// The first byte of a text that is not blank.
fn first_shown(text: &[u8]) -> Option<u8>
    ensures { result ≡ find (λ b. not (is_blank b)) text.now }
{
    text.iter().copied().find(|byte| !is_blank(*byte))
}

/// Whether a text begins as an object does.
fn begins_object(text: &[u8]) -> bool
    ensures { result ≡ begins_object text.now }
{
    match first_shown(text) {
        Some(byte) => byte == b'{',
        None => false,
    }
}

/// Whether a text is compressed by gzip.
fn is_compressed(text: &[u8]) -> bool
    ensures { result ≡ is_compressed text.now }
{
    text.starts_with(&[0x1f, 0x8b])
}

/// Why a first line that has no value tells no event.
fn unread_first(line: &[u8]) -> LineFault
    ensures { result ≡ unread_first line.now }
{
    if begins_object(line) {
        LineFault::NotWhole
    } else if is_compressed(line) {
        LineFault::Compressed
    } else {
        LineFault::Object(ObjectFault::NotJson)
    }
}

/// Why the line with this number, which has no value, tells no event.
pub(crate) fn unread_line(number_of_line: u64, line: &[u8]) -> LineFault
    ensures { result ≡ unread_line number_of_line line.now }
{
    if number_of_line == 1 {
        unread_first(without_mark(line))
    } else {
        LineFault::Object(ObjectFault::NotJson)
    }
}

/// Where the first line feed of a text is.
fn line_end(text: &[u8]) -> Option<usize>
    ensures value { result ≡ position (λ b. b == 10) text.now }
    ensures within { IfSome result (λ end. end ≤ length text.now) }
{
    text.iter().position(|byte| *byte == b'\n')
}

/// The first line of a text, without its line feed.
fn first_line(text: &[u8]) -> &[u8]
    ensures { result.now ≡ first_line text.now }
{
    match line_end(text) {
        Some(end) => &text[..end],
        None => text,
    }
}

/// Whether the first line of a text is an object that names an event.
fn begins_events(alloc: Global, text: &[u8]) -> Result<bool, AllocError>
    ensures { IfOk result (λ is. is ≡ begins_with is_of_event text.now) }
{
    match text_value(alloc, first_line(text))? {
        Some(value) => Ok(is_of_event(&value)),
        None => Ok(false),
    }
}

/// Whether it names the channel of a flit.
fn begins_flits(alloc: Global, text: &[u8]) -> Result<bool, AllocError>
    ensures { IfOk result (λ is. is ≡ begins_with is_of_flit text.now) }
{
    match text_value(alloc, first_line(text))? {
        Some(value) => Ok(is_of_flit(&value)),
        None => Ok(false),
    }
}

/// Why a text that has no value is no trace.
pub(crate) fn unread_text(alloc: Global, text: &[u8]) -> Result<TraceFault, AllocError>
    ensures { IfOk result (λ fault. fault ≡ unread_text text.now) }
{
    if begins_events(alloc, text)? {
        Ok(TraceFault::OfEvents)
    } else if begins_flits(alloc, text)? {
        Ok(TraceFault::OfFlits)
    } else if is_compressed(text) {
        Ok(TraceFault::Compressed)
    } else {
        Ok(TraceFault::Object(ObjectFault::NotJson))
    }
}
