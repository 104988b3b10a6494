//! The operations that end by events.

use super::home::{ENABLES, OLD, Told, after, take};
use super::steps::{Case, Step, assert_cases};
use crate::tests::comparison::assert_same;
use chi_events::EventFault;
use chi_fields::Kind;
use chi_lanes::Reply;
use std::test::Fail;

const ANSWERED: Option<Reply> = Some(Reply::CompData(OLD));

// Where data come after their request, the operation ends when both have come, in either order. All may have one time. A completion
// that does not say what was done ends its operation too. A number is free again once its request has ended or was dropped. Other
// requests stay in the order in which they were taken. What is told of memory, and that nothing more is told, is of no request, and
// may come at any time.
static ENDINGS: [Case; 9] = [
    (
        "data_with_the_request",
        &[
            Step::Take(10, Told::Load(3)),
            Step::Ends(30, Told::Answer(3), 10, ANSWERED),
            Step::Left(0),
        ],
    ),
    (
        "data_after_the_request: then the reply",
        &[
            Step::Take(10, Told::LoadAlone(3)),
            Step::Take(20, Told::Data(3, ENABLES)),
            Step::Left(1),
            Step::Ends(35, Told::Answer(3), 10, ANSWERED),
            Step::Left(0),
        ],
    ),
    (
        "data_after_the_request: and the reply",
        &[
            Step::Take(10, Told::LoadAlone(3)),
            Step::Take(20, Told::Answer(3)),
            Step::Left(1),
            Step::Ends(35, Told::Data(3, ENABLES), 10, ANSWERED),
            Step::Left(0),
        ],
    ),
    (
        "events_of_one_time",
        &[
            Step::Take(0, Told::LoadAlone(0)),
            Step::Take(0, Told::Data(0, ENABLES)),
            Step::Ends(0, Told::Answer(0), 0, ANSWERED),
        ],
    ),
    (
        "null_reply",
        &[
            Step::Take(10, Told::Load(3)),
            Step::Ends(12, Told::Replied(3, None), 10, None),
        ],
    ),
    (
        "dropped_request",
        &[
            Step::Take(10, Told::Load(3)),
            Step::Take(11, Told::Dropped(3)),
            Step::Left(0),
            Step::Fails(12, Told::Replied(3, None), EventFault::NotOutstanding),
        ],
    ),
    (
        "number_taken_again",
        &[
            Step::Take(10, Told::Load(3)),
            Step::Ends(20, Told::Answer(3), 10, ANSWERED),
            Step::Take(30, Told::Load(3)),
            Step::Take(35, Told::Dropped(3)),
            Step::Take(40, Told::LoadAlone(3)),
            Step::Take(45, Told::Data(3, ENABLES)),
            Step::Ends(50, Told::Answer(3), 40, ANSWERED),
        ],
    ),
    (
        "one_of_three_ends",
        &[
            Step::Take(10, Told::Read(8, 4096)),
            Step::Take(11, Told::Load(5)),
            Step::Take(12, Told::LoadAlone(6)),
            Step::Ends(13, Told::Answer(5), 11, ANSWERED),
            Step::Requests(&[(8, 10), (6, 12)]),
        ],
    ),
    (
        "events_of_no_request",
        &[
            Step::Take(10, Told::Load(3)),
            Step::Take(11, Told::Word),
            Step::Left(1),
            Step::Take(12, Told::Final),
            Step::Left(1),
            Step::Take(13, Told::Unknown),
            Step::Left(1),
            Step::Take(14, Told::End),
            Step::Left(1),
        ],
    ),
];

#[test]
fn operations_that_end(rt: HostRuntime) -> Result<(), Fail> {
    assert_cases(&rt, &ENDINGS)
}

// A read needs no data.
#[test]
fn read_of_four_bytes(rt: HostRuntime) -> Result<(), Fail> {
    let mut outstanding = after(rt.alloc(), &[(40, Told::Read(u64::MAX, 4104))])?;
    let Some(op) = take(&mut outstanding, 41, Told::Answer(u64::MAX))? else {
        return Err(Fail::new("no operation ended"));
    };
    let access = op.access;
    assert_same(
        &rt,
        (op.start, op.end, op.src, op.reply),
        (40, 41, 2, ANSWERED),
    );
    assert_same(
        &rt,
        (access.kind(), access.addr(), access.len(), access.endian()),
        (Kind::Read, 4104, 4, true),
    );
    Ok(())
}
