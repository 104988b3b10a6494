//! Tests of operations that can be moved before others.

use super::found::{ANY, Case, NOTHING, Numbers, assert_each_found};
use super::operations::{READ, STORE_ADD, Timed, WRITE};
use std::test::Fail;

const BYTES: u64 = 0x0706_0504_0302_0100;

const ONES: u64 = 0x0101_0101_0101_0101;

// Operations that are open at once, and a read after them: additions of 1, 2, 3 and so on; writes of each byte of the granule, and
// after them additions to each; a write of all bytes of a word and one of each of them; and a write of two bytes and one of the
// lower of them, where each order has its read.
static MOVED: [Case; 8] = [
    (
        "additions_of_one_operand: 170",
        &[
            Timed::Rising(18, (0, 10), STORE_ADD, 1),
            Timed::Told((11, 20), READ, 0, 170),
        ],
        None,
        (1000, ANY),
        NOTHING,
    ),
    (
        "additions_of_one_operand: 171",
        &[
            Timed::Rising(18, (0, 10), STORE_ADD, 1),
            Timed::Told((11, 20), READ, 0, 171),
        ],
        None,
        (1000, ANY),
        Numbers::Many(19, None, Some(18)),
    ),
    (
        "bytes_apart: none",
        &[
            Timed::EachByte((0, 10), WRITE, BYTES),
            Timed::EachByte((11, 20), STORE_ADD, ONES),
            Timed::Told((21, 30), READ, 0, 0x0807_0605_0403_0200),
        ],
        None,
        (200, ANY),
        NOTHING,
    ),
    (
        "bytes_apart: one",
        &[
            Timed::EachByte((0, 10), WRITE, BYTES),
            Timed::EachByte((11, 20), STORE_ADD, ONES),
            Timed::Told((21, 30), READ, 0, 0x0807_0605_0403_0201),
        ],
        None,
        (1000, ANY),
        Numbers::Many(17, None, Some(16)),
    ),
    (
        "writes_that_agree: none",
        &[
            Timed::Done((0, 10), WRITE, BYTES),
            Timed::EachByte((0, 10), WRITE, BYTES),
            Timed::Told((11, 20), READ, 0, 0x0706_0504_0302_0000),
        ],
        None,
        (200, ANY),
        NOTHING,
    ),
    (
        "writes_that_agree: one",
        &[
            Timed::Done((0, 10), WRITE, BYTES),
            Timed::EachByte((0, 10), WRITE, BYTES),
            Timed::Told((11, 20), READ, 0, 0x0706_0504_0302_0100),
        ],
        None,
        (100, ANY),
        Numbers::Many(10, None, Some(9)),
    ),
    (
        "operands_that_overlap_may_need_the_other_order: after",
        &[
            Timed::Done((0, 10), WRITE, 0x0102),
            Timed::DoneAt((0, 10), WRITE, 0, 0x05),
            Timed::Told((11, 20), READ, 0, 0x0105),
        ],
        None,
        (1000, ANY),
        Numbers::These(&[0, 1, 2]),
    ),
    (
        "operands_that_overlap_may_need_the_other_order: before",
        &[
            Timed::Done((0, 10), WRITE, 0x0102),
            Timed::DoneAt((0, 10), WRITE, 0, 0x05),
            Timed::Told((11, 20), READ, 0, 0x0102),
        ],
        None,
        (1000, ANY),
        Numbers::These(&[1, 0, 2]),
    ),
];

#[test]
fn operations_moved_before_others(rt: HostRuntime) -> Result<(), Fail> {
    assert_each_found(&rt, &MOVED)
}
