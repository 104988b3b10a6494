//! States in which an operation must find, or the end must have, what nothing that is left can leave.

ghost use Rattle.std.specs.Prelude.{◌≡◌, ℕ, ◌<◌, ◌≤◌, true, IsTrue, IfSome, Option, None, length};
ghost use Rattle.chi_trace.specs.Explains.{at, is_answered};
ghost use Rattle.chi_search.specs.Problems.{IsProblem};
ghost use Rattle.chi_search.specs.Makers.{IsOutOfReach, IsPart};
ghost use Rattle.chi_search.specs.Positions;
ghost use Rattle.chi_search.specs.Positions.{position_of};
ghost use Rattle.chi_search.specs.Within.{IsDeadWithin, IsRun};

use crate::counting::is_miscounted;
use crate::making::{Later, has_maker};
use crate::problem::Problem;
use crate::state::{State, is_left};
use chi_trace::Operation;

/// How many operations a run is followed back beyond the last one, at a state.
pub(crate) const FOLLOWED: usize = 3;

// Whether the word is not that of the state in these bits, and no run that stands before the other one is seen to lead to all of
// them, or to those of one byte.
fn is_out_of_reach(
    problem: &Problem,
    state: &State,
    other: Option<usize>,
    word: u64,
    bits: u64,
    mask: u64,
    depth: usize,
    asked: &mut usize,
) -> bool
    requires problem { IsProblem problem.now }
    requires each { length problem.now.ops.now ≤ length problem.now.effects.now }
    requires other { IfSome other (λ after. after < length problem.now.ops.now) }
    requires run { IsRun mask }
    requires bits { IsPart bits mask }
    ensures { IsTrue result → IsOutOfReach mask problem.now.ops.now (position_of state.now) (record { next = other; second = None; third = None; fourth = None }) word bits }
{
    let differing = word ^ state.word;
    if differing & bits == 0 {
        return false;
    }
    let later = Later {
        next: other,
        second: None,
        third: None,
        fourth: None,
    };
    if !has_maker(problem, state, later, word, bits, mask, depth, asked) {
        return true;
    }
    for byte in 0..8_u32 {
        let part = bits & (0xff << (8 * byte));
        if differing & part != 0
            && !has_maker(problem, state, later, word, part, mask, depth, asked)
        {
            return true;
        }
    }
    false
}

/// Whether the operation is left, and stands in every order, since its reply was seen.
pub(crate) fn must_find(ops: &[Operation], state: &State, place: usize) -> bool
    requires { place < length ops.now }
    ensures left { IsTrue result → Positions.is_left (length ops.now) (position_of state.now) place ≡ true }
    ensures answered { IsTrue result → is_answered (at ops.now place) ≡ true }
{
    ops[place].reply.is_some() && is_left(state, ops.len(), place)
}

/// Whether in the bits of the mask an operation that is left must find, or the end must have, what nothing that is left can
/// leave, or a number that no sums can make. So many operations from the first on are looked at, and of these the ones that start by `until`. Of those that start by
/// `time` a run is followed back over `depth` operations beyond the last one. So many times as many may be asked what they leave.
pub(crate) fn lacks_maker(
    problem: &Problem,
    state: &State,
    mask: u64,
    time: u64,
    until: u64,
    count: usize,
    depth: usize,
) -> bool
    requires problem { IsProblem problem.now }
    requires run { IsRun mask }
    ensures { IsTrue result → IsDeadWithin mask problem.now.ops.now problem.now.final_word (position_of state.now) }
{
    let ops = problem.ops;
    let effects = problem.effects;
    if effects.len() < ops.len() {
        return false;
    }
    if is_miscounted(problem, state, mask) {
        return true;
    }
    let mut asked = count.saturating_mul(count);
    if let Some(seen) = problem.final_word
        && is_out_of_reach(problem, state, None, seen, mask, mask, depth, &mut asked)
    {
        return true;
    }
    let mut place = problem.earliest.next(ops, state.first, until);
    while place < ops.len() && place - state.first < count {
        let followed = if ops[place].start <= time { depth } else { 0 };
        if must_find(ops, state, place)
            && is_out_of_reach(
                problem,
                state,
                Some(place),
                effects[place].found,
                effects[place].found_mask & mask,
                mask,
                followed,
                &mut asked,
            )
        {
            return true;
        }
        place = problem.earliest.next(ops, place + 1, until);
    }
    false
}
