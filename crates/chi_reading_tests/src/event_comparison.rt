//! What a line tells, and its fault, beside what is wanted.

use chi_events::{Event, EventKind, WordTold};
use chi_json::{ObjectFault, Scratch, ShownText, ShownValue};
use chi_reading::{LineFault, Member, read_event};
use chi_trace::RequestFields;
use std::process::Abort;

fn same_asked(fields: &RequestFields, want: &RequestFields) -> bool {
    fields.number == want.number
        && fields.src == want.src
        && fields.txn == want.txn
        && fields.opcode == want.opcode
        && fields.size == want.size
        && fields.addr == want.addr
        && fields.endian == want.endian
        && fields.be == want.be
        && fields.lanes == want.lanes
}

fn same_word(told: &WordTold, want: &WordTold) -> bool {
    told.number == want.number && told.granule == want.granule && told.word == want.word
}

fn same_kind(kind: &EventKind, want: &EventKind) -> bool {
    match (kind, want) {
        (EventKind::Request(told), EventKind::Request(want)) => {
            told.id == want.id
                && told.has_data == want.has_data
                && same_asked(&told.fields, &want.fields)
        }
        (EventKind::Data(told), EventKind::Data(want)) => {
            told.id == want.id && told.be == want.be && told.lanes == want.lanes
        }
        (EventKind::Reply(told), EventKind::Reply(want)) => {
            told.id == want.id && told.reply == want.reply
        }
        (EventKind::Dropped { id }, EventKind::Dropped { id: want }) => id == want,
        (
            EventKind::Refused { id, reason },
            EventKind::Refused {
                id: want_id,
                reason: want_reason,
            },
        ) => id == want_id && reason == want_reason,
        (EventKind::End, EventKind::End) => true,
        (EventKind::Word(told), EventKind::Word(want)) => same_word(told, want),
        (EventKind::Final(told), EventKind::Final(want)) => same_word(told, want),
        (
            EventKind::Unknown { addr, length },
            EventKind::Unknown {
                addr: want_addr,
                length: want_length,
            },
        ) => addr == want_addr && length == want_length,
        _ => false,
    }
}

/// What the line with this number tells, or its fault.
pub(crate) fn read<R: AllocGlobal>(rt: &R, number: u64, line: &[u8]) -> Result<Event, LineFault> {
    let mut scratch = Scratch::new(rt.alloc());
    read_event(rt.alloc(), &mut scratch, number, line)
}

/// Compares what line 4 tells, at time 70.
pub(crate) fn assert_tells<R: AllocGlobal + Abort>(rt: &R, line: &str, want: &EventKind) {
    let is_told = match read(rt, 4, line.as_bytes()) {
        Ok(event) => event.time == 70 && same_kind(&event.kind, want),
        Err(_) => false,
    };
    assert!(*rt; is_told, "{line}");
}

/// Compares the fault of line 4, which is one of its object.
pub(crate) fn assert_fault<R: AllocGlobal + Abort>(rt: &R, line: &str, want: ObjectFault<Member>) {
    let fault = read(rt, 4, line.as_bytes()).err();
    assert_eq!(*rt; fault, Some(LineFault::Object(want)), "{line}");
}

/// A text as a fault shows it.
pub(crate) fn shown_text(text: &str) -> ShownValue {
    ShownValue::Text(ShownText::of(text))
}

/// Compares the fault of line 4, of which a member has this value.
pub(crate) fn assert_bad_member<R: AllocGlobal + Abort>(
    rt: &R,
    line: &str,
    member: Member,
    value: ShownValue,
) {
    assert_fault(rt, line, ObjectFault::BadMember { member, value });
}
