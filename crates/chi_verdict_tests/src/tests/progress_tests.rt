//! Tests of what progress is told: each state that is looked at, which is also what a budget counts.

ghost use Rattle.std.specs.Prelude.{◌≡◌, ◌-◌, ◌^◌, min};

use crate::tests::comparison::assert_same;
use crate::tests::traces::{BUDGET, LOW, LOWER, NEXT, Timed};
use crate::tests::verdicts::{first, verdict};
use crate::tests::words_tests::held_within;
use chi_search::Progress;
use chi_verdict::{First, Verdict};
use std::alloc::Global;
use std::test::Fail;

// How many states were looked at.
#[derive(Drop)]
struct Looks(u64);

impl Progress for Looks {
    ghost states = { λ s n. s.0 ≡ min n (2 ^ 64 - 1) };

    ghost looked = { λ k s n. s.0 ≡ min n (2 ^ 64 - 1) };

    ghost are_states = { λ s n is. is };

    fn look(&mut self, _left: u64) -> u64 {
        self.0 = self.0.saturating_add(1);
        1
    }

    fn before_verdict(&mut self) {}

    fn after_verdict(&mut self, _operations: usize, _pending: usize) {}

    fn cut_short(&self) -> Option<u64> {
        None
    }
}

// An operation on the lower granule, and two on the next.
const THREE: [Timed; 3] = [
    Timed::Write((0, 10), LOW, 5),
    Timed::Add((0, 10), NEXT, 0),
    Timed::Read((20, 30), NEXT, 1),
];

// Which granule of the three operations is not decided within so many states, and how many were looked at, of both.
fn found_within(alloc: Global, budget: u64) -> Result<(Option<u64>, u64), Fail> {
    let mut looks = Looks(0);
    match verdict(alloc, &[], &THREE, &[], budget, &mut looks)? {
        Verdict::Explained(_) => Ok((None, looks.0)),
        Verdict::Unexplained { granule: _ } => Err(Fail::new("the trace is not explained")),
        Verdict::Undecided { granule, states: _ } => Ok((Some(granule), looks.0)),
    }
}

// Each granule's search comes to a state by each operation. Where that takes the whole budget, it does not look on.
#[test]
fn states_of_each_granule(rt: HostRuntime) -> Result<(), Fail> {
    for (budget, granule, states) in [
        (BUDGET, None, 3),
        (3, None, 3),
        (2, Some(NEXT / 8), 3),
        (1, Some(LOWER), 2),
        (0, Some(LOWER), 0),
    ] {
        let found = found_within(rt.alloc(), budget)?;
        assert_same(&rt, (budget, found), (budget, (granule, states)));
    }
    Ok(())
}

// The trace up to the time before is searched once more, which takes three states.
#[test]
fn states_of_a_blame(rt: HostRuntime) -> Result<(), Fail> {
    let [write, add, sees_one] = THREE;
    let stale = Timed::Read((40, 50), NEXT, 0);
    let ops = [write, add, sees_one, stale];
    let mut looks = Looks(0);
    let First::At(blame) = first(rt.alloc(), &ops, 16, BUDGET, &mut looks)? else {
        return Err(Fail::new("explained at each time"));
    };
    assert_same(&rt, (blame.stop.time, looks.0 > 3), (50, true));
    Ok(())
}

#[test]
fn words_at_end_look_at_states(rt: HostRuntime) -> Result<(), Fail> {
    let mut looks = Looks(0);
    let mut budget = BUDGET;
    let words = held_within(rt.alloc(), &[], &THREE, NEXT, &mut budget, &mut looks)?;
    let spent = BUDGET.saturating_sub(budget);
    assert_same(&rt, words.as_slice(), [1].as_slice());
    assert_same(&rt, (looks.0 > 0, looks.0), (true, spent));
    Ok(())
}
