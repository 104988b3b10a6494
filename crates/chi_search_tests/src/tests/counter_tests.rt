//! Tests of numbers that no sums can make.

use super::found::{ANY, Case, NOTHING, Numbers, assert_each_found};
use super::operations::{READ, STORE_ADD, Timed};
use std::test::Fail;

// Additions of 2, 4 and so on up to 80, or of as many less, which are open at once: all of them are 1,640. Beside them a read, or after
// them.
static SUMS: [Case; 3] = [
    (
        "further up",
        &[
            Timed::Rising(40, (0, 10), STORE_ADD, 2),
            Timed::Told((0, 10), READ, 0, 2000),
        ],
        None,
        (1000, ANY),
        NOTHING,
    ),
    (
        "further down",
        &[
            Timed::Rising(40, (0, 10), STORE_ADD, u64::MAX - 1),
            Timed::Told((0, 10), READ, 0, u64::MAX - 1999),
        ],
        None,
        (1000, ANY),
        NOTHING,
    ),
    (
        "as far as all",
        &[
            Timed::Rising(40, (0, 10), STORE_ADD, 2),
            Timed::Told((11, 20), READ, 0, 1640),
        ],
        None,
        (1000, ANY),
        Numbers::Many(41, None, Some(40)),
    ),
];

#[test]
fn numbers_beyond_all_sums(rt: HostRuntime) -> Result<(), Fail> {
    assert_each_found(&rt, &SUMS)
}
