//! Tests of operations whose replies were not seen: they may have taken effect or not.

use super::found::{OrderCase, assert_orders};
use super::operations::{ADD, READ, Timed, WRITE};
use std::test::Fail;

const READ_OF_4: Timed = Timed::Told((5, 10), READ, 0, 4);

const ADDITION: Timed = Timed::Silent((0, 10), ADD, 1);

static NOT_SEEN: [OrderCase; 6] = [
    (
        "open_write_before_a_read_of_it",
        &[READ_OF_4, Timed::Silent((0, u64::MAX), WRITE, 4)],
        None,
        &[1, 0],
    ),
    (
        "open_write_before_a_read_of_it: late",
        &[READ_OF_4, Timed::Silent((11, u64::MAX), WRITE, 4)],
        None,
        &[999],
    ),
    (
        "silent_add_as_the_last_word_tells: 1",
        &[ADDITION],
        Some(1),
        &[0],
    ),
    (
        "silent_add_as_the_last_word_tells: 0",
        &[ADDITION],
        Some(0),
        &[],
    ),
    (
        "silent_add_as_the_last_word_tells: 2",
        &[ADDITION],
        Some(2),
        &[999],
    ),
    (
        "silent_write_takes_no_effect_after_its_end",
        &[
            Timed::Silent((0, 10), WRITE, 4),
            Timed::Done((11, 20), WRITE, 5),
            Timed::Told((30, 40), READ, 0, 4),
        ],
        None,
        &[999],
    ),
];

#[test]
fn operations_whose_replies_were_not_seen(rt: HostRuntime) -> Result<(), Fail> {
    assert_orders(&rt, &NOT_SEEN)
}
