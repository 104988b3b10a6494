//! Requests that are refused, and the reasons that a home can have.

use super::home::{ENABLES, OLD, Told, after, fault};
use super::steps::{Case, Step, assert_cases};
use crate::tests::comparison::assert_same;
use chi_events::EventFault;
use chi_fields::Refusal;
use chi_lanes::Reply;
use std::process::Abort;
use std::test::Fail;

const REASONS: [Refusal; 6] = [
    Refusal::UnknownOpcode,
    Refusal::ReservedSize,
    Refusal::SizeOutOfProfile,
    Refusal::Misaligned,
    Refusal::OutOfRegion,
    Refusal::BadByteEnable,
];

// Compares whether a home may refuse a request for a reason: by it the request has gone, or it stays.
fn assert_reason<R: AllocGlobal + Abort>(
    rt: &R,
    case: &str,
    events: &[(u64, Told)],
    (id, reason): (u64, Refusal),
    has_gone: bool,
) -> Result<(), Fail> {
    let mut outstanding = after(rt.alloc(), events)?;
    let found = fault(&mut outstanding, 20, Told::Refused(id, Some(reason)));
    let left = outstanding.count();
    if has_gone {
        assert_same(rt, (case, reason, found, left), (case, reason, None, 0));
    } else {
        let fault = Some(EventFault::NotRefusedSo);
        assert_same(rt, (case, reason, found, left), (case, reason, fault, 1));
    }
    Ok(())
}

// A name, events, the number of a request, and the reasons for which a home may refuse it after them.
type Reasons = (
    &'static str,
    &'static [(u64, Told)],
    u64,
    &'static [Refusal],
);

fn assert_reasons<R: AllocGlobal + Abort>(rt: &R, cases: &[Reasons]) -> Result<(), Fail> {
    for (case, events, id, wanted) in cases {
        for reason in &REASONS {
            let has_gone = wanted.contains(reason);
            assert_reason(rt, case, events, (*id, *reason), has_gone)?;
        }
    }
    Ok(())
}

// The reasons are looked at in their order: what is not in the region is refused before byte enables are looked at.
static BY_REQUEST: [Reasons; 9] = [
    (
        "opcode",
        &[(10, Told::Request(0x05, 7, 4105, 0))],
        9,
        &[Refusal::UnknownOpcode],
    ),
    (
        "reserved size",
        &[(10, Told::Request(0x30, 7, 4105, 0))],
        9,
        &[Refusal::ReservedSize],
    ),
    (
        "size",
        &[(10, Told::Request(0x30, 4, 4105, 0))],
        9,
        &[Refusal::SizeOutOfProfile],
    ),
    (
        "misaligned",
        &[(10, Told::Request(0x30, 3, 4105, 0))],
        9,
        &[Refusal::Misaligned],
    ),
    (
        "no byte enables",
        &[(10, Told::Request(0x30, 3, 4104, 0))],
        9,
        &[Refusal::OutOfRegion, Refusal::BadByteEnable],
    ),
    (
        "at 4104",
        &[(10, Told::Request(0x30, 3, 4104, 0xff00))],
        9,
        &[Refusal::OutOfRegion],
    ),
    (
        "at 56",
        &[(10, Told::Request(0x30, 3, 56, 0xff00))],
        9,
        &[Refusal::OutOfRegion],
    ),
    (
        "at 2^52",
        &[(10, Told::Request(0x30, 3, 4503599627370496, 0x00ff))],
        9,
        &[Refusal::OutOfRegion],
    ),
    (
        "after 2^52",
        &[(10, Told::Request(0x30, 3, 4503599627370497, 0x00ff))],
        9,
        &[Refusal::OutOfRegion, Refusal::Misaligned],
    ),
];

#[test]
fn reasons_by_the_request(rt: HostRuntime) -> Result<(), Fail> {
    assert_reasons(&rt, &BY_REQUEST)
}

// Data that are still to come may have bad byte enables.
static BEFORE_DATA: [Reasons; 3] = [
    (
        "waiting",
        &[(10, Told::LoadAlone(3))],
        3,
        &[Refusal::OutOfRegion, Refusal::BadByteEnable],
    ),
    (
        "good",
        &[(10, Told::LoadAlone(3)), (11, Told::Data(3, ENABLES))],
        3,
        &[Refusal::OutOfRegion],
    ),
    (
        "bad",
        &[(10, Told::LoadAlone(3)), (11, Told::Data(3, 0x00ff))],
        3,
        &[Refusal::OutOfRegion, Refusal::BadByteEnable],
    ),
];

#[test]
fn reasons_before_the_data(rt: HostRuntime) -> Result<(), Fail> {
    assert_reasons(&rt, &BEFORE_DATA)
}

const ANSWERED: Option<Reply> = Some(Reply::CompData(OLD));

const MISALIGNED: Told = Told::Request(0x30, 3, 4105, 0xff00);

// Without a reason each request may be refused. Data that are refused before the completion come before it, which is then refused; after
// it, the request waits on for its data. A request between others that is refused is no operation. The reason of a refusal is the one
// that is told, or the one that a home of all addresses has.
static REFUSALS: [Case; 7] = [
    (
        "refused_without_a_reason: misaligned",
        &[
            Step::Take(10, MISALIGNED),
            Step::Take(11, Told::Refused(9, None)),
            Step::Left(0),
        ],
    ),
    (
        "refused_without_a_reason: with data",
        &[
            Step::Take(10, Told::Load(3)),
            Step::Take(11, Told::Refused(3, None)),
            Step::Left(0),
        ],
    ),
    (
        "refused_without_a_reason: without data",
        &[
            Step::Take(10, Told::LoadAlone(3)),
            Step::Take(11, Told::Refused(3, None)),
            Step::Left(0),
        ],
    ),
    (
        "refused_data_before_the_reply",
        &[
            Step::Take(10, Told::LoadAlone(3)),
            Step::Take(11, Told::Data(3, 0x00ff)),
            Step::Fails(12, Told::Data(3, ENABLES), EventFault::DataTwice),
            Step::Fails(
                12,
                Told::Answer(3),
                EventFault::Refused(Refusal::BadByteEnable),
            ),
        ],
    ),
    (
        "refused_data",
        &[
            Step::Take(10, Told::LoadAlone(3)),
            Step::Take(11, Told::Answer(3)),
            Step::Fails(
                12,
                Told::Data(3, 0x00ff),
                EventFault::Refused(Refusal::BadByteEnable),
            ),
            Step::Left(1),
            Step::Ends(13, Told::Data(3, ENABLES), 10, ANSWERED),
        ],
    ),
    (
        "refused_between_others",
        &[
            Step::Take(10, Told::Load(3)),
            Step::Take(11, MISALIGNED),
            Step::Take(12, Told::LoadAlone(4)),
            Step::Take(13, Told::Refused(9, Some(Refusal::Misaligned))),
            Step::Take(14, Told::Answer(4)),
            Step::Ends(15, Told::Data(4, ENABLES), 12, ANSWERED),
            Step::Ends(16, Told::Answer(3), 10, ANSWERED),
            Step::Left(0),
        ],
    ),
    (
        "reasons_that_are_told",
        &[
            Step::Take(10, Told::Load(3)),
            Step::Take(11, MISALIGNED),
            Step::Take(12, Told::LoadAlone(4)),
            Step::Reason(
                Told::Refused(3, Some(Refusal::OutOfRegion)),
                Some(Refusal::OutOfRegion),
            ),
            Step::Reason(Told::Refused(3, None), None),
            Step::Reason(Told::Refused(4, None), None),
            Step::Reason(Told::Refused(5, None), None),
            Step::Reason(Told::Refused(9, None), Some(Refusal::Misaligned)),
            Step::Reason(Told::Replied(9, None), None),
            Step::Reason(Told::Dropped(9), None),
        ],
    ),
];

#[test]
fn requests_and_data_that_are_refused(rt: HostRuntime) -> Result<(), Fail> {
    assert_cases(&rt, &REFUSALS)
}
