//! What is found where requests are dropped, or end with an error.

use crate::tests::home::{FoundCase, Told, assert_each_found};
use std::test::Fail;

// A write that was dropped took no effect; one that ended with an error may have taken effect or not. A read that answered 5 beside the
// write is found when the write is dropped, and no sooner. Where another read is outstanding it is found when that is dropped too. A
// request of another granule that is dropped has that judged, and not this one.
static DROPPED: [FoundCase; 11] = [
    (
        "dropped_and_in_error: dropped, 0",
        &[
            Told::Write(1, 5),
            Told::Dropped(1),
            Told::Read(2),
            Told::Answer(2, 0),
        ],
        false,
    ),
    (
        "dropped_and_in_error: dropped, 5",
        &[
            Told::Write(1, 5),
            Told::Dropped(1),
            Told::Read(2),
            Told::Answer(2, 5),
        ],
        true,
    ),
    (
        "dropped_and_in_error: error, 0",
        &[
            Told::Write(1, 5),
            Told::Failed(1),
            Told::Read(2),
            Told::Answer(2, 0),
        ],
        false,
    ),
    (
        "dropped_and_in_error: error, 5",
        &[
            Told::Write(1, 5),
            Told::Failed(1),
            Told::Read(2),
            Told::Answer(2, 5),
        ],
        false,
    ),
    (
        "dropped_and_in_error: error, 6",
        &[
            Told::Write(1, 5),
            Told::Failed(1),
            Told::Read(2),
            Told::Answer(2, 6),
        ],
        true,
    ),
    (
        "a_write_that_was_dropped_after_a_read: 0",
        &[
            Told::Write(1, 5),
            Told::Read(2),
            Told::Answer(2, 0),
            Told::Dropped(1),
        ],
        false,
    ),
    (
        "a_write_that_was_dropped_after_a_read: 0, and another read",
        &[
            Told::Write(1, 5),
            Told::Read(2),
            Told::Read(3),
            Told::Answer(2, 0),
            Told::Dropped(1),
            Told::Dropped(3),
        ],
        false,
    ),
    (
        "a_write_that_was_dropped_after_a_read: 5",
        &[
            Told::Write(1, 5),
            Told::Read(2),
            Told::Answer(2, 5),
            Told::Dropped(1),
        ],
        true,
    ),
    (
        "a_write_that_was_dropped_after_a_read: 5, and another read",
        &[
            Told::Write(1, 5),
            Told::Read(2),
            Told::Read(3),
            Told::Answer(2, 5),
            Told::Dropped(1),
            Told::Dropped(3),
        ],
        true,
    ),
    (
        "a_request_of_another_granule_that_was_dropped: that alone",
        &[
            Told::Write(1, 5),
            Told::Read(2),
            Told::Answer(2, 6),
            Told::ReadNext(3),
            Told::Dropped(3),
        ],
        false,
    ),
    (
        "a_request_of_another_granule_that_was_dropped: and the write",
        &[
            Told::Write(1, 5),
            Told::Read(2),
            Told::Answer(2, 6),
            Told::ReadNext(3),
            Told::Dropped(3),
            Told::Dropped(1),
        ],
        true,
    ),
];

#[test]
fn requests_that_are_dropped_or_fail(rt: HostRuntime) -> Result<(), Fail> {
    assert_each_found(&rt, &DROPPED)
}
