//! Tests of random traces of a few operations: each is decided, and where one is not explained the time is found.

use crate::tests::comparison::assert_same;
use crate::tests::traces::{ADD, BUDGET, LOW, NEXT, READ, STORE_ADD, SWAP, Timed, WRITE};
use crate::tests::verdicts::{blame, verdict};
use chi_search::NoProgress;
use chi_verdict::Verdict;
use std::alloc::Global;
use std::test::Fail;

// The next of a row of numbers that look random.
fn next(seed: &mut u64) -> u64 {
    *seed = seed
        .wrapping_mul(6_364_136_223_846_793_005)
        .wrapping_add(1_442_695_040_888_963_407);
    *seed >> 33
}

// The next operation on one of two granules. Most of their replies are wrong.
fn random_operation(seed: &mut u64) -> Timed {
    let start = next(seed) % 8;
    let times = (start, start + next(seed) % 6);
    let addr = if next(seed) % 2 == 0 { LOW } else { NEXT };
    let word = next(seed) % 3;
    let answer = next(seed) % 3;
    match next(seed) % 5 {
        0 => Timed::Answered(times, READ, addr, word, answer),
        1 => Timed::Answered(times, SWAP, addr, word, answer),
        2 => Timed::Answered(times, ADD, addr, word, answer),
        3 => Timed::Done(times, WRITE, addr, word),
        _ => Timed::Done(times, STORE_ADD, addr, word),
    }
}

// Two to six operations, in the order of their starts.
fn random_operations(alloc: Global, seed: &mut u64) -> Result<Vec<Timed>, Fail> {
    let mut ops = Vec::new(alloc);
    for _ in 0..2 + next(seed) % 5 {
        ops.push(random_operation(seed))?;
    }
    ops.sort_by_key(|op| op.start())?;
    Ok(ops)
}

// Whether a trace is explained.
fn is_explained(alloc: Global, ops: &[Timed]) -> Result<bool, Fail> {
    match verdict(alloc, &[], ops, &[], BUDGET, &mut NoProgress)? {
        Verdict::Explained(_) => Ok(true),
        Verdict::Unexplained { .. } => Ok(false),
        Verdict::Undecided { .. } => Err(Fail::new("a trace is not decided")),
    }
}

#[test]
fn random_traces_are_decided(rt: HostRuntime) -> Result<(), Fail> {
    let mut seed = 1;
    for trace in 0..500 {
        let ops = random_operations(rt.alloc(), &mut seed)?;
        let is_explained = is_explained(rt.alloc(), &ops)?;
        let is_never = blame(rt.alloc(), &ops, 16)?.is_none();
        assert_same(&rt, (trace, is_never), (trace, is_explained));
    }
    Ok(())
}
