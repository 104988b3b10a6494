//! The faults of an event, and their texts.

use super::home::{ENABLES, OLD, STRAY, Told, after, fault};
use super::steps::{Case, Step, assert_cases};
use crate::tests::comparison::assert_same;
use chi_events::{EventFault, Outstanding};
use chi_fields::Refusal;
use chi_lanes::Reply;
use std::alloc::Global;
use std::process::Abort;
use std::test::Fail;

/// Compares the text of a fault.
pub(crate) fn assert_text<R: AllocGlobal + Abort>(
    rt: &R,
    fault: EventFault,
    wanted: &str,
) -> Result<(), Fail> {
    let text = format!(in rt.alloc(); "{fault}")?;
    assert_same(rt, text.as_str(), wanted);
    Ok(())
}

// All that is known of the requests.
fn shown(alloc: Global, outstanding: &Outstanding) -> Result<String, Fail> {
    let requests = outstanding.requests(alloc)?;
    Ok(format!(in alloc; "{:?}", requests.as_slice())?)
}

// An event at a time, its fault, and the text of that.
type FaultCase = (u64, Told, EventFault, &'static str);

// Compares the fault that each event meets after the same events, which it leaves as they were, and its text.
fn assert_faults<R: AllocGlobal + Abort>(
    rt: &R,
    outstanding: &mut Outstanding,
    cases: &[FaultCase],
) -> Result<(), Fail> {
    let before = shown(rt.alloc(), outstanding)?;
    for (time, told, wanted, text) in cases {
        let found = fault(outstanding, *time, *told);
        assert_same(rt, (*text, found), (*text, Some(*wanted)));
        assert_text(rt, *wanted, text)?;
        let after = shown(rt.alloc(), outstanding)?;
        assert_same(rt, (*text, after.as_str()), (*text, before.as_str()));
    }
    Ok(())
}

// Request 1 has its data, request 2 waits for them, and so does request 3, whose completion has left. Request 4 needs none.
// After a fault nothing has changed.
static FAULTS: [FaultCase; 11] = [
    (
        13,
        Told::Replied(1, None),
        EventFault::TimeFalls,
        "is earlier than the event before it",
    ),
    (
        15,
        Told::Load(2),
        EventFault::NumberTaken,
        "takes a number of an outstanding request",
    ),
    (
        15,
        Told::Data(5, ENABLES),
        EventFault::NotOutstanding,
        "is of no outstanding request",
    ),
    (
        15,
        Told::Replied(5, None),
        EventFault::NotOutstanding,
        "is of no outstanding request",
    ),
    (
        15,
        Told::Dropped(5),
        EventFault::NotOutstanding,
        "is of no outstanding request",
    ),
    (
        15,
        Told::Data(1, ENABLES),
        EventFault::DataTwice,
        "has data for a request that has them or needs none",
    ),
    (
        15,
        Told::Data(4, ENABLES),
        EventFault::DataTwice,
        "has data for a request that has them or needs none",
    ),
    (
        15,
        Told::Answer(3),
        EventFault::ReplyTwice,
        "has a second reply",
    ),
    (
        15,
        Told::Refused(5, None),
        EventFault::NotOutstanding,
        "is of no outstanding request",
    ),
    (
        15,
        Told::Refused(3, None),
        EventFault::RefusedAfterReply,
        "refuses a request that has a reply",
    ),
    (
        15,
        Told::Refused(1, Some(Refusal::Misaligned)),
        EventFault::NotRefusedSo,
        "is not refused so",
    ),
];

#[test]
fn faults_and_their_texts(rt: HostRuntime) -> Result<(), Fail> {
    let events = [
        (10, Told::Load(1)),
        (11, Told::LoadAlone(2)),
        (12, Told::LoadAlone(3)),
        (13, Told::Answer(3)),
        (14, Told::Read(4, 4096)),
    ];
    let mut outstanding = after(rt.alloc(), &events)?;
    assert_faults(&rt, &mut outstanding, &FAULTS)
}

#[test]
fn text_of_no_memory(rt: HostRuntime) -> Result<(), Fail> {
    assert_text(&rt, EventFault::Memory, "no memory")
}

// An operation ends by a reply that no home gives it, whatever the memory holds, and has that reply: no order explains it then. So it
// does where its data come last.
static UNKNOWN_REPLIES: [Case; 4] = [
    (
        "replies_that_no_home_gives: data of an AtomicStore",
        &[
            Step::Take(10, Told::Request(0x28, 3, 4104, ENABLES)),
            Step::Replies(
                11,
                Told::Replied(9, Some(Reply::CompData(OLD))),
                Reply::CompData(OLD),
            ),
        ],
    ),
    (
        "replies_that_no_home_gives: no data of an AtomicLoad",
        &[
            Step::Take(10, Told::Request(0x30, 3, 4104, ENABLES)),
            Step::Replies(11, Told::Replied(9, Some(Reply::Comp)), Reply::Comp),
        ],
    ),
    (
        "replies_that_no_home_gives: lane 7",
        &[
            Step::Take(10, Told::Request(0x30, 3, 4104, ENABLES)),
            Step::Replies(
                11,
                Told::Replied(9, Some(Reply::CompData(STRAY))),
                Reply::CompData(STRAY),
            ),
        ],
    ),
    (
        "data_after_a_reply_that_no_home_gives",
        &[
            Step::Take(10, Told::LoadAlone(3)),
            Step::Take(11, Told::Replied(3, Some(Reply::Comp))),
            Step::Replies(12, Told::Data(3, ENABLES), Reply::Comp),
        ],
    ),
];

#[test]
fn replies_that_no_home_gives(rt: HostRuntime) -> Result<(), Fail> {
    assert_cases(&rt, &UNKNOWN_REPLIES)
}
