//! Tests of traces as values: which operations are those of one, and what was known at a time and explains that.

use crate::tests::comparison::assert_same;
use crate::tests::traces::{BUDGET, LOW, Timed, observed, trace};
use chi_lanes::Reply;
use chi_search::NoProgress;
use chi_trace::{GranuleWords, Trace, are_traced};
use chi_verdict::{Verdict, explain};
use std::alloc::Global;
use std::test::Fail;

// Whether reads with these starts and ends are the operations of a trace.
fn are_two(alloc: Global, first: (u64, u64), second: (u64, u64)) -> Result<bool, Fail> {
    let ops = [Timed::Read(first, LOW, 0), Timed::Read(second, LOW, 0)];
    Ok(are_traced(&observed(alloc, &ops)?))
}

#[test]
fn operations_of_a_trace(rt: HostRuntime) -> Result<(), Fail> {
    for (first, second, wanted) in [
        ((5, 9), (6, 8), true),
        ((6, 8), (5, 9), false),
        ((5, 4), (6, 8), false),
        ((5, 5), (5, 9), true),
    ] {
        let found = are_two(rt.alloc(), first, second)?;
        assert_same(&rt, (first, second, found), (first, second, wanted));
    }
    Ok(())
}

// What was known of operations at a time.
fn known(alloc: Global, ops: &[Timed], time: u64) -> Result<Trace, Fail> {
    Ok(trace(alloc, &[], ops)?.cut(alloc, time)?)
}

// The replies of two operations.
fn replies(trace: &Trace) -> Option<(Option<Reply>, Option<Reply>)> {
    match trace.operations() {
        [first, second] => Some((first.reply, second.reply)),
        _ => None,
    }
}

#[test]
fn what_was_known_at_a_time(rt: HostRuntime) -> Result<(), Fail> {
    let ops = [
        Timed::Write((0, 20), LOW, 5),
        Timed::Add((3, 21), LOW, 5),
        Timed::Read((21, 30), LOW, 6),
    ];
    let cut = known(rt.alloc(), &ops, 20)?;
    assert_same(&rt, replies(&cut), Some((Some(Reply::Comp), None)));
    assert_same(&rt, cut.opening().as_slice().len(), 0);
    Ok(())
}

// The order that is found of what was known at a time.
fn order_until(alloc: Global, ops: &[Timed], time: u64) -> Result<Vec<usize>, Fail> {
    let cut = known(alloc, ops, time)?;
    let none = GranuleWords::none(alloc);
    match explain(alloc, &cut, &none, BUDGET, &mut NoProgress)? {
        Verdict::Explained(order) => Ok(order),
        _ => Err(Fail::new("no order was found")),
    }
}

// The write has begun and not ended when the reads are answered: it may have taken effect, or not.
#[test]
fn open_write(rt: HostRuntime) -> Result<(), Fail> {
    let ops = [
        Timed::Write((0, 100), LOW, 5),
        Timed::Read((10, 20), LOW, 0),
        Timed::Read((30, 40), LOW, 5),
    ];
    let cases: [(u64, &[usize], &[usize]); 4] = [
        (9, &[], &[0]),
        (20, &[1], &[1, 0]),
        (40, &[1, 0, 2], &[1, 0, 2]),
        (100, &[1, 0, 2], &[1, 0, 2]),
    ];
    for (time, order, other) in &cases {
        let found = order_until(rt.alloc(), &ops, *time)?;
        let is_either = found.as_slice() == *order || found.as_slice() == *other;
        assert_same(
            &rt,
            (*time, found.as_slice(), is_either),
            (*time, found.as_slice(), true),
        );
    }
    Ok(())
}
