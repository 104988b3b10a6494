//! Tests of searches that end since some bytes of the word have no order by themselves, or go on by what they tell.

use super::found::{ANY, Case, NOTHING, Numbers, assert_each_found};
use super::operations::{READ, STORE_ADD, Timed, WRITE};
use std::test::Fail;

const ONES: u64 = 0x0101_0101_0101_0101;

const FIVES: u64 = 5 * ONES;

// The first two are, of each byte of the granule but one, of a write of 5 and an addition of 1 that are open at once, and a read after
// them. One finds a byte that no order leaves, the other what one does. The others are of four writes of each byte, of 1 to 4, all
// open at once, and of four writes of all bytes among them.
static BYTES: [Case; 4] = [
    (
        "bytes_that_no_order_or_one_leaves: none",
        &[
            Timed::DoneAt((0, 10), WRITE, 0, FIVES),
            Timed::DoneAt((0, 10), STORE_ADD, 0, ONES),
            Timed::DoneAt((0, 10), WRITE, 1, FIVES),
            Timed::DoneAt((0, 10), STORE_ADD, 1, ONES),
            Timed::DoneAt((0, 10), WRITE, 2, FIVES),
            Timed::DoneAt((0, 10), STORE_ADD, 2, ONES),
            Timed::DoneAt((0, 10), WRITE, 3, FIVES),
            Timed::DoneAt((0, 10), STORE_ADD, 3, ONES),
            Timed::DoneAt((0, 10), WRITE, 4, FIVES),
            Timed::DoneAt((0, 10), STORE_ADD, 4, ONES),
            Timed::DoneAt((0, 10), WRITE, 5, FIVES),
            Timed::DoneAt((0, 10), STORE_ADD, 5, ONES),
            Timed::DoneAt((0, 10), WRITE, 6, FIVES),
            Timed::DoneAt((0, 10), STORE_ADD, 6, ONES),
            Timed::Told((11, 20), READ, 0, 0x0006_0606_0606_0607),
        ],
        None,
        (200, ANY),
        NOTHING,
    ),
    (
        "bytes_that_no_order_or_one_leaves: one",
        &[
            Timed::DoneAt((0, 10), WRITE, 0, FIVES),
            Timed::DoneAt((0, 10), STORE_ADD, 0, ONES),
            Timed::DoneAt((0, 10), WRITE, 1, FIVES),
            Timed::DoneAt((0, 10), STORE_ADD, 1, ONES),
            Timed::DoneAt((0, 10), WRITE, 2, FIVES),
            Timed::DoneAt((0, 10), STORE_ADD, 2, ONES),
            Timed::DoneAt((0, 10), WRITE, 3, FIVES),
            Timed::DoneAt((0, 10), STORE_ADD, 3, ONES),
            Timed::DoneAt((0, 10), WRITE, 4, FIVES),
            Timed::DoneAt((0, 10), STORE_ADD, 4, ONES),
            Timed::DoneAt((0, 10), WRITE, 5, FIVES),
            Timed::DoneAt((0, 10), STORE_ADD, 5, ONES),
            Timed::DoneAt((0, 10), WRITE, 6, FIVES),
            Timed::DoneAt((0, 10), STORE_ADD, 6, ONES),
            Timed::Told((11, 20), READ, 0, 0x0006_0506_0506_0506),
        ],
        None,
        (1000, ANY),
        Numbers::Many(15, None, Some(14)),
    ),
    (
        "writes_of_a_byte_before_a_read",
        &[
            Timed::EachByte((0, 10), WRITE, ONES),
            Timed::EachByte((0, 10), WRITE, 2 * ONES),
            Timed::EachByte((0, 10), WRITE, 3 * ONES),
            Timed::EachByte((0, 10), WRITE, 4 * ONES),
            Timed::Told((11, 20), READ, 0, 0x0102_0304_0403_0201),
        ],
        None,
        (450, ANY),
        Numbers::Many(33, None, Some(32)),
    ),
    (
        "writes_of_all_bytes_among_them",
        &[
            Timed::EachByte((0, 10), WRITE, ONES),
            Timed::EachByte((0, 10), WRITE, 2 * ONES),
            Timed::EachByte((0, 10), WRITE, 3 * ONES),
            Timed::EachByte((0, 10), WRITE, 4 * ONES),
            Timed::Done((0, 10), WRITE, 5 * ONES),
            Timed::Done((0, 10), WRITE, 6 * ONES),
            Timed::Done((0, 10), WRITE, 7 * ONES),
            Timed::Done((0, 10), WRITE, 8 * ONES),
            Timed::Told((11, 20), READ, 0, 0x0808_0308_0808_0201),
        ],
        None,
        (1000, ANY),
        Numbers::Many(37, None, Some(36)),
    ),
];

#[test]
fn bytes_by_themselves(rt: HostRuntime) -> Result<(), Fail> {
    assert_each_found(&rt, &BYTES)
}
