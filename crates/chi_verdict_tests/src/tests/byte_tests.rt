//! Tests of traces with operations on some bytes of a granule, of many writes, and of two neighbouring granules, with answers
//! that were worked by hand.

use crate::tests::traces::{ADD, LOW, LOWER, NEXT, STORE_ADD, Sent, Timed, WRITE};
use crate::tests::verdicts::{Case, Told, assert_verdicts};
use std::test::Fail;

const BEFORE: u64 = 0xff00_0000_0000_0000;

const AFTER: u64 = 0x0001_0000_0000_0000;

// An addition of 1 to the two bytes at the granule's end.
const ADDED: Sent = Sent {
    opcode: ADD,
    size: 1,
    addr: LOW + 6,
    endian: false,
    be: 0x00c0,
    lanes: 0x0100_0000_0000_0000,
};

const BIG_ENDIAN: Timed = Timed::BytesAnswered(
    (0, 10),
    Sent {
        endian: true,
        ..ADDED
    },
    BEFORE,
);

const LITTLE_ENDIAN: Timed = Timed::BytesAnswered((0, 10), ADDED, BEFORE);

// Writes of the two lowest bytes.
const LOW_BYTE: Sent = Sent {
    opcode: WRITE,
    size: 0,
    addr: LOW,
    endian: false,
    be: 0x0001,
    lanes: 0xaa,
};

const HIGH_BYTE: Sent = Sent {
    opcode: WRITE,
    size: 0,
    addr: LOW + 1,
    endian: false,
    be: 0x0002,
    lanes: 0xbb00,
};

const ONE: Timed = Timed::Write((0, 90), LOW, 1);

const TWO: Timed = Timed::Write((0, 90), LOW, 2);

const THREE: Timed = Timed::Write((0, 90), LOW, 3);

const SEES_TWO: Timed = Timed::Read((10, 20), LOW, 2);

const SEES_THREE: Timed = Timed::Read((30, 40), LOW, 3);

// Additions to two granules.
const NEIGHBOURS: [Timed; 4] = [
    Timed::Add((0, 10), LOW, 0),
    Timed::Done((20, 30), STORE_ADD, NEXT, 3),
    Timed::Add((40, 50), LOW, 1),
    Timed::Read((60, 70), NEXT, 3),
];

// The bytes 00 ff at the granule's end are 255 in big-endian order, and 01 00 are 256. Of the three writes only the later reads tell
// the order. Each of two granules' order is told by its own words, and the times hold both together.
static TRACES: [Case; 9] = [
    (
        "big_endian_add: carried",
        &[(LOW, BEFORE)],
        &[BIG_ENDIAN],
        &[(LOW, AFTER)],
        Told::Explained(1),
    ),
    (
        "big_endian_add: 0",
        &[(LOW, BEFORE)],
        &[BIG_ENDIAN],
        &[(LOW, 0)],
        Told::Unexplained(LOWER),
    ),
    (
        "big_endian_add: little-endian",
        &[(LOW, BEFORE)],
        &[LITTLE_ENDIAN],
        &[(LOW, 0)],
        Told::Explained(1),
    ),
    (
        "bytes_of_one_granule: both",
        &[],
        &[
            Timed::BytesDone((0, 50), HIGH_BYTE),
            Timed::BytesDone((0, 50), LOW_BYTE),
            Timed::Read((10, 20), LOW, 0x00aa),
            Timed::Read((30, 40), LOW, 0xbbaa),
        ],
        &[(LOW, 0xbbaa)],
        Told::Ordered(&[1, 2, 0, 3]),
    ),
    (
        "bytes_of_one_granule: high alone",
        &[],
        &[
            Timed::BytesDone((0, 50), HIGH_BYTE),
            Timed::BytesDone((0, 50), LOW_BYTE),
            Timed::Read((10, 20), LOW, 0x00aa),
            Timed::Read((30, 40), LOW, 0xbb00),
        ],
        &[(LOW, 0xbbaa)],
        Told::Unexplained(LOWER),
    ),
    (
        "writes_told_by_reads",
        &[],
        &[
            ONE,
            TWO,
            THREE,
            SEES_TWO,
            SEES_THREE,
            Timed::Read((50, 60), LOW, 1),
        ],
        &[(LOW, 1)],
        Told::Ordered(&[1, 3, 2, 4, 0, 5]),
    ),
    (
        "writes_told_by_reads: 2 again",
        &[],
        &[
            ONE,
            TWO,
            THREE,
            SEES_TWO,
            SEES_THREE,
            Timed::Read((50, 60), LOW, 2),
        ],
        &[],
        Told::Unexplained(LOWER),
    ),
    (
        "two_granules",
        &[(LOW, 0), (NEXT, 0)],
        &NEIGHBOURS,
        &[(LOW, 2), (NEXT, 3)],
        Told::Ordered(&[0, 1, 2, 3]),
    ),
    (
        "two_granules: 1 at the opening",
        &[(LOW, 0), (NEXT, 1)],
        &NEIGHBOURS,
        &[(LOW, 2), (NEXT, 4)],
        Told::Unexplained(NEXT / 8),
    ),
];

#[test]
fn bytes_writes_and_neighbours(rt: HostRuntime) -> Result<(), Fail> {
    assert_verdicts(&rt, &TRACES)
}
