//! Tests of what is told of the states that are looked at.

ghost use Rattle.std.specs.Prelude.{◌≡◌, ◌-◌, ◌^◌, min};

use super::operations::{ADD, Timed, observed};
use crate::tests::comparison::assert_same;
use chi_search::{Progress, are_searchable, order_of, words_of};
use std::test::Fail;

// Counts the states, up to the largest number.
#[derive(Drop)]
struct States(u64);

impl Progress for States {
    ghost states = { λ s n. s.0 ≡ min n (2 ^ 64 - 1) };

    ghost looked = { λ k s n. s.0 ≡ min n (2 ^ 64 - 1) };

    ghost are_states = { λ s n is. is };

    fn look(&mut self, _left: u64) -> u64 {
        self.0 = self.0.saturating_add(1);
        1
    }

    fn before_verdict(&mut self) {}

    fn after_verdict(&mut self, _operations: usize, _pending: usize) {}

    fn cut_short(&self) -> Option<u64> {
        None
    }
}

#[test]
fn states_are_counted_as_the_budget_is_spent(rt: HostRuntime) -> Result<(), Fail> {
    let ops = observed(
        rt.alloc(),
        &[
            Timed::Silent((0, 10), ADD, 1),
            Timed::Silent((5, 15), ADD, 1),
        ],
    )?;
    let mut budget = 100;
    let mut states = States(0);
    if are_searchable(&ops) {
        let _found = order_of(rt.alloc(), &ops, 0, Some(3), &mut budget, &mut states)?;
        let _words = words_of(rt.alloc(), &ops, &[0], &mut budget, &mut states)?;
    }
    let spent = 100_u64.saturating_sub(budget);
    assert_same(&rt, (states.0 > 2, states.0), (true, spent));
    Ok(())
}
