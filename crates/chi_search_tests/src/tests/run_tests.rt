//! Tests of what an operation would have to find before it could leave what another one finds.

use super::found::{ANY, Case, NOTHING, Numbers, assert_each_found};
use super::operations::{READ, STORE_ADD, STORE_EOR, Timed, WRITE};
use std::test::Fail;

const ADDITIONS: Timed = Timed::Same(3, (0, 10), STORE_ADD, 0x0001_0001);

const WRITES: Timed = Timed::RisingAt(9, (0, 10), WRITE, 7, 1 << 56);

// Writes of 22 even numbers, all open at once.
const EVENS: Timed = Timed::Rising(22, (0, 20), WRITE, (1 << 56) | 2);

const ADDED: Timed = Timed::Done((0, 20), STORE_ADD, 2);

const TURNED: Timed = Timed::Done((0, 20), STORE_EOR, 2);

const ODD: Timed = Timed::Told((0, 20), READ, 0, 77);

// An AtomicStore of 2 is open beside those writes, and a read.
static MADE: [Case; 4] = [
    (
        "odd, added",
        &[EVENS, ADDED, ODD],
        None,
        (1000, ANY),
        NOTHING,
    ),
    (
        "odd, turned",
        &[EVENS, TURNED, ODD],
        None,
        (1000, ANY),
        NOTHING,
    ),
    (
        "made, added",
        &[EVENS, ADDED, Timed::Told((0, 20), READ, 0, (3 << 56) | 8)],
        None,
        (1000, ANY),
        Numbers::Many(24, None, None),
    ),
    (
        "made, turned",
        &[EVENS, TURNED, Timed::Told((0, 20), READ, 0, (3 << 56) | 4)],
        None,
        (1000, ANY),
        Numbers::Many(24, None, None),
    ),
];

#[test]
fn odd_number_of_even_ones_and_one_that_is_made(rt: HostRuntime) -> Result<(), Fail> {
    assert_each_found(&rt, &MADE)
}

// Three additions of 1 to each of the two lowest pairs of bytes and nine writes of the highest byte, all open at once, and a read
// of a word that ends last. The first takes 107 states: eight for each operation, and three for the additions in the lowest bytes.
// In the next ones none is looked at.
static SUMS: [Case; 2] = [
    (
        "0x7777_0003",
        &[
            ADDITIONS,
            WRITES,
            Timed::Told((10, 20), READ, 0, (9 << 56) | 0x7777_0003),
        ],
        None,
        (110, ANY),
        NOTHING,
    ),
    (
        "0x0003_0003",
        &[
            ADDITIONS,
            WRITES,
            Timed::Told((10, 20), READ, 0, (9 << 56) | 0x0003_0003),
        ],
        None,
        (1000, ANY),
        Numbers::Many(13, None, Some(12)),
    ),
];

#[test]
fn sum_that_reaches_below_its_bytes(rt: HostRuntime) -> Result<(), Fail> {
    assert_each_found(&rt, &SUMS)
}
