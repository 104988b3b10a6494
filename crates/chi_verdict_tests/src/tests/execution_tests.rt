//! Tests of what the memory does when operations are executed in an order: its replies, and the words that it has after them.

use crate::tests::comparison::assert_same;
use crate::tests::traces::{ADD, HIGH, LOW, NEXT, Timed, data, trace};
use chi_lanes::Reply;
use chi_trace::{Executed, Trace, execute};
use std::alloc::Global;
use std::process::Abort;
use std::test::Fail;

// What the memory does: a reply without data, or with this word of the granule at an address.
#[derive(Clone, Copy)]
enum Does {
    Comp,
    Data(u64, u64),
}

// The operations and the words before them, their order and the replies, the words of two granules after it, and of how many
// granules there are words.
struct Case<'a> {
    name: &'a str,
    ops: &'a [Timed],
    opening: &'a [(u64, u64)],
    order: &'a [usize],
    replies: &'a [Does],
    wanted: [(u64, Option<u64>); 2],
    count: usize,
}

// What the memory does in this order of the operations.
fn executed(alloc: Global, trace: &Trace, order: &[usize]) -> Result<Executed, Fail> {
    let places = trace.operations().len();
    if order.iter().any(|place| *place >= places) {
        return Err(Fail::new("the order has a place that is none of the trace"));
    }
    Ok(execute(alloc, trace, order)?)
}

// The replies that are wanted.
fn replies(alloc: Global, wanted: &[Does]) -> Result<Vec<Reply>, Fail> {
    let mut list = Vec::new(alloc);
    for each in wanted {
        list.push(match *each {
            Does::Comp => Reply::Comp,
            Does::Data(addr, word) => data(addr, word),
        })?;
    }
    Ok(list)
}

// Compares the word of a granule after it.
fn assert_word<R: Abort>(rt: &R, name: &str, after: &Executed, wanted: (u64, Option<u64>)) {
    let (addr, word) = wanted;
    assert_same(
        rt,
        (name, addr, after.words.get(addr / 8)),
        (name, addr, word),
    );
}

fn assert_executed<R: AllocGlobal + Abort>(rt: &R, case: &Case<'_>) -> Result<(), Fail> {
    let trace = trace(rt.alloc(), case.opening, case.ops)?;
    let after = executed(rt.alloc(), &trace, case.order)?;
    let wanted = replies(rt.alloc(), case.replies)?;
    let name = case.name;
    assert_same(
        rt,
        (name, after.replies.as_slice()),
        (name, wanted.as_slice()),
    );
    assert_word(rt, name, &after, case.wanted[0]);
    assert_word(rt, name, &after, case.wanted[1]);
    assert_same(rt, (name, after.words.as_slice().len()), (name, case.count));
    Ok(())
}

fn assert_each<R: AllocGlobal + Abort>(rt: &R, cases: &[Case<'_>]) -> Result<(), Fail> {
    for case in cases {
        assert_executed(rt, case)?;
    }
    Ok(())
}

// A read that answered 10 beside an addition that answered 7, and a write to the next granule.
const BESIDE: [Timed; 3] = [
    Timed::Answered((0, 10), ADD, LOW, 3, 7),
    Timed::Read((0, 10), LOW, 10),
    Timed::Write((0, 10), NEXT, 5),
];

// Two additions to granules of which no word was told.
const UNTOLD: [Timed; 2] = [
    Timed::Silent((0, 10), ADD, HIGH, 3),
    Timed::Silent((0, 10), ADD, NEXT, 4),
];

// The last of the orders of BESIDE is none that explains the operations, since the read comes before the addition. An addition to a
// granule of which no word was told finds 0, and a granule of which one was told keeps it.
static EXECUTED: [Case<'static>; 7] = [
    Case {
        name: "words_after_an_order",
        ops: &[
            Timed::Write((0, 10), HIGH, 5),
            Timed::Add((0, 10), LOW, 0),
            Timed::Add((11, 20), HIGH, 5),
        ],
        opening: &[],
        order: &[0, 1, 2],
        replies: &[Does::Comp, Does::Data(LOW, 0), Does::Data(HIGH, 5)],
        wanted: [(LOW, Some(1)), (HIGH, Some(6))],
        count: 2,
    },
    Case {
        name: "words_after_orders: of none",
        ops: &BESIDE,
        opening: &[(LOW, 7)],
        order: &[],
        replies: &[],
        wanted: [(LOW, Some(7)), (NEXT, None)],
        count: 1,
    },
    Case {
        name: "words_after_orders: of one",
        ops: &BESIDE,
        opening: &[(LOW, 7)],
        order: &[0],
        replies: &[Does::Data(LOW, 7)],
        wanted: [(LOW, Some(10)), (NEXT, None)],
        count: 1,
    },
    Case {
        name: "words_after_orders: of all",
        ops: &BESIDE,
        opening: &[(LOW, 7)],
        order: &[2, 0, 1],
        replies: &[Does::Comp, Does::Data(LOW, 7), Does::Data(LOW, 10)],
        wanted: [(LOW, Some(10)), (NEXT, Some(5))],
        count: 2,
    },
    Case {
        name: "words_after_orders: read first",
        ops: &BESIDE,
        opening: &[(LOW, 7)],
        order: &[1, 0, 2],
        replies: &[Does::Data(LOW, 7), Does::Data(LOW, 7), Does::Comp],
        wanted: [(LOW, Some(10)), (NEXT, Some(5))],
        count: 2,
    },
    Case {
        name: "granules_told_and_not_touched_or_touched_and_not_told: touched",
        ops: &UNTOLD,
        opening: &[(LOW, 7)],
        order: &[0],
        replies: &[Does::Data(HIGH, 0)],
        wanted: [(LOW, Some(7)), (HIGH, Some(3))],
        count: 2,
    },
    Case {
        name: "granules_told_and_not_touched_or_touched_and_not_told: neither",
        ops: &UNTOLD,
        opening: &[(LOW, 7)],
        order: &[0],
        replies: &[Does::Data(HIGH, 0)],
        wanted: [(LOW, Some(7)), (NEXT, None)],
        count: 2,
    },
];

#[test]
fn words_and_replies_of_orders(rt: HostRuntime) -> Result<(), Fail> {
    assert_each(&rt, &EXECUTED)
}
