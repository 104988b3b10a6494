//! Which bytes of an answer no legal answer has, and which operations wrote them last, worked by hand.

use crate::comparison::assert_same;
use chi_excerpt::{add_excerpt, add_writers};
use chi_judge::Stop;
use chi_lanes::Reply;
use chi_search::Words;
use chi_trace::{Operation, RequestFields, access};
use std::alloc::Global;
use std::process::Abort;
use std::test::Fail;

const READ: u8 = 0x04;

const WRITE: u8 = 0x1c;

const STORE_ADD: u8 = 0x28;

const ADD: u8 = 0x30;

const COMPARE: u8 = 0x39;

// What came back: nothing that was seen, a completion without data, or a packet, lane 0 its least significant byte.
#[derive(Clone, Copy)]
enum Seen {
    Nothing,
    Comp,
    Data(u128),
}

// An operation: the number of its request, its opcode, size, address, byte enables and packet, and what came back.
#[derive(Clone, Copy)]
struct Row(u64, u8, u8, u64, u16, u128, Seen);

// An operation that is blamed, the legal answers, and an order; the last lines of the excerpt, and the lines of who wrote its bytes.
struct Case {
    name: &'static str,
    blamed: Row,
    legal: &'static [Seen],
    order: &'static [Row],
    excerpt: &'static str,
    writers: &'static str,
}

// In the first case bytes are 11 22 33 44 .. and then 11 bb cc 44 .., and 11 00 cc 00 .. is read. An AtomicCompare sends the value that
// it compares in lane 0, and in lane 1 the one that it writes.
static CASES: [Case; 10] = [
    Case {
        name: "two_of_eight_bytes_enabled",
        blamed: Row(3, READ, 3, 0x1000, 0, 0, Seen::Data(0x8877_6655_00cc_0011)),
        legal: &[Seen::Data(0x8877_6655_44cc_bb11)],
        order: &[
            Row(1, WRITE, 3, 0x1000, 0xff, 0x8877_6655_4433_2211, Seen::Comp),
            Row(2, WRITE, 3, 0x1000, 0x06, 0xffff_ffff_ffcc_bbff, Seen::Comp),
        ],
        excerpt: "    legal would be:  returned 11bbcc4455667788
    unlike each of these: +1 is 00, +3 is 00
",
        writers: "    last written by request 1: +3
    last written by request 2: +1
",
    },
    Case {
        name: "a_byte_that_one_of_two_legal_answers_has",
        blamed: Row(2, READ, 1, 0x1000, 0, 0, Seen::Data(0x0709)),
        legal: &[Seen::Data(0x0700), Seen::Data(0)],
        order: &[Row(1, WRITE, 1, 0x1000, 0x03, 0x0700, Seen::Comp)],
        excerpt: "    legal would be:  returned 0007
    legal would be:  returned 0000
    unlike each of these: +0 is 09
",
        writers: "    last written by request 1: +0
",
    },
    Case {
        name: "each_byte_is_in_one_of_two_legal_answers",
        blamed: Row(2, READ, 1, 0x1000, 0, 0, Seen::Data(0x0101)),
        legal: &[Seen::Data(0x0001), Seen::Data(0x0100)],
        order: &[Row(1, WRITE, 1, 0x1000, 0x03, 0x0001, Seen::Comp)],
        excerpt: "    legal would be:  returned 0100
    legal would be:  returned 0001
",
        writers: "",
    },
    Case {
        name: "a_compare_that_did_not_match",
        blamed: Row(3, READ, 0, 0x1000, 0, 0, Seen::Data(0x06)),
        legal: &[Seen::Data(0x05)],
        order: &[
            Row(1, WRITE, 0, 0x1000, 0x01, 0x05, Seen::Comp),
            Row(2, COMPARE, 1, 0x1000, 0x03, 0x0604, Seen::Data(0x05)),
        ],
        excerpt: "    legal would be:  returned 05
    unlike each of these: +0 is 06
",
        writers: "    last written by request 1: +0
",
    },
    Case {
        name: "a_compare_that_matched",
        blamed: Row(3, READ, 0, 0x1000, 0, 0, Seen::Data(0x05)),
        legal: &[Seen::Data(0x06)],
        order: &[
            Row(1, WRITE, 0, 0x1000, 0x01, 0x05, Seen::Comp),
            Row(2, COMPARE, 1, 0x1000, 0x03, 0x0605, Seen::Data(0x05)),
        ],
        excerpt: "    legal would be:  returned 06
    unlike each of these: +0 is 05
",
        writers: "    last written by request 2: +0
",
    },
    Case {
        name: "a_compare_whose_answer_was_not_seen",
        blamed: Row(3, READ, 0, 0x1000, 0, 0, Seen::Data(0x07)),
        legal: &[Seen::Data(0x05), Seen::Data(0x06)],
        order: &[
            Row(1, WRITE, 0, 0x1000, 0x01, 0x05, Seen::Comp),
            Row(2, COMPARE, 1, 0x1000, 0x03, 0x0605, Seen::Nothing),
        ],
        excerpt: "    legal would be:  returned 05
    legal would be:  returned 06
    unlike each of these: +0 is 07
",
        writers: "    last written by request 2: +0
",
    },
    Case {
        name: "none_that_wrote",
        blamed: Row(
            9,
            READ,
            2,
            0x100c,
            0,
            0,
            Seen::Data(0x00ff_0000_0000_0000_0000_0000_0000_0000),
        ),
        legal: &[Seen::Data(0)],
        order: &[
            Row(7, READ, 3, 0x1008, 0, 0, Seen::Data(0)),
            Row(8, WRITE, 2, 0x1008, 0x0f00, 0, Seen::Comp),
        ],
        excerpt: "    legal would be:  returned 00000000
    unlike each of these: +6 is ff
",
        writers: "",
    },
    Case {
        name: "the_blamed_one_in_the_order",
        blamed: Row(2, ADD, 3, 0x1000, 0xff, 1, Seen::Data(0)),
        legal: &[Seen::Data(1)],
        order: &[
            Row(1, ADD, 3, 0x1000, 0xff, 1, Seen::Data(0)),
            Row(2, ADD, 3, 0x1000, 0xff, 1, Seen::Nothing),
        ],
        excerpt: "    legal would be:  returned 0100000000000000
    unlike each of these: +0 is 00
",
        writers: "    last written by request 1: +0
",
    },
    Case {
        name: "a_store_after_a_write",
        blamed: Row(3, READ, 3, 0x1000, 0, 0, Seen::Data(0x0003_0003)),
        legal: &[Seen::Data(0x0002_0001_0002)],
        order: &[
            Row(1, WRITE, 3, 0x1000, 0xff, 0x0002_0001_0001, Seen::Comp),
            Row(2, STORE_ADD, 1, 0x1000, 0x03, 1, Seen::Comp),
        ],
        excerpt: "    legal would be:  returned 0200010002000000
    unlike each of these: +0 is 03, +2 is 03, +4 is 00
",
        writers: "    last written by request 1: +2 +4
    last written by request 2: +0
",
    },
    Case {
        name: "a_legal_answer_without_data",
        blamed: Row(1, WRITE, 3, 0x1000, 0xff, 0, Seen::Data(9)),
        legal: &[Seen::Comp],
        order: &[],
        excerpt: "    no home answers so: its kind has a reply without data
    legal would be:  comp
",
        writers: "",
    },
];

fn reply(seen: Seen) -> Option<Reply> {
    match seen {
        Seen::Nothing => None,
        Seen::Comp => Some(Reply::Comp),
        Seen::Data(lanes) => Some(Reply::CompData(lanes.to_le_bytes())),
    }
}

// What was observed of it, from 30 to 40.
fn operation(row: &Row) -> Result<Operation, Fail> {
    let Row(number, opcode, size, addr, be, lanes, seen) = *row;
    let fields = RequestFields {
        number,
        src: 1,
        txn: 1,
        opcode,
        size,
        addr,
        endian: false,
        be,
        lanes: lanes.to_le_bytes(),
    };
    match access(&fields, &None) {
        Ok(access) => Ok(fields.operation(access, 30, 40, reply(seen))),
        Err(_) => Err(Fail::new("a request is refused")),
    }
}

fn operations(alloc: Global, rows: &[Row]) -> Result<Vec<Operation>, Fail> {
    let mut ops = Vec::new(alloc);
    for row in rows {
        ops.push(operation(row)?)?;
    }
    Ok(ops)
}

fn stop(alloc: Global, case: &Case) -> Result<Stop, Fail> {
    let mut legal = Vec::new(alloc);
    for seen in case.legal {
        if let Some(reply) = reply(*seen) {
            legal.push(reply)?;
        }
    }
    Ok(Stop {
        time: 40,
        op: operation(&case.blamed)?,
        suspects: Vec::new(alloc),
        overlapping: Vec::new(alloc),
        words: Words::Unknown,
        before: Vec::new(alloc),
        order: operations(alloc, case.order)?,
        legal,
    })
}

fn assert_told<R: AllocGlobal + Abort>(rt: &R, case: &Case) -> Result<(), Fail> {
    let alloc = rt.alloc();
    let stop = stop(alloc, case)?;
    let mut text = Vec::new(alloc);
    add_excerpt(alloc, &mut text, "request", &stop)?;
    let is_told = text.ends_with(case.excerpt.as_bytes());
    assert_same(rt, (case.name, is_told), (case.name, true));
    let mut text = Vec::new(alloc);
    add_writers(alloc, &mut text, "request", &stop, &stop.order)?;
    assert_same(
        rt,
        (case.name, text.as_slice()),
        (case.name, case.writers.as_bytes()),
    );
    Ok(())
}

#[test]
fn wrong_bytes_and_who_wrote_them(rt: HostRuntime) -> Result<(), Fail> {
    for case in &CASES {
        assert_told(&rt, case)?;
    }
    Ok(())
}
