//! The operation that changes the fewest bits, of those that can come next.

ghost use Rattle.std.specs.Prelude.{◌<◌, IfOk, IfSome, Some, length};
ghost use Rattle.chi_search.specs.Problems.{IsProblem};
ghost use Rattle.chi_search.specs.Paths.{Moves};
ghost use Rattle.chi_search.specs.Positions.{IsReady, position_of};

use crate::choice::take;
use crate::equal::has_equal_before;
use crate::problem::Problem;
use crate::state::State;
use crate::states::{States, has};
use std::alloc::AllocError;

/// Makes `next` the state after the operation that changes the fewest bits, of those that can be taken and lead to a state that
/// is not known to be dead. None where it is not asked.
pub(crate) fn narrowest_next(
    problem: &Problem,
    dead: &States,
    state: &State,
    is_asked: bool,
    next: &mut State,
) -> Result<Option<usize>, AllocError>
    requires problem { IsProblem problem.now }
    requires first { state.now.first < length problem.now.ops.now }
    requires ready { IsReady (length problem.now.ops.now) (position_of state.now) }
    ensures moves { IfOk result (λ found. IfSome found (λ op. Moves problem.now.ops.now (position_of state.now) (Some op) (position_of next.new))) }
    ensures ready { IfOk result (λ found. IfSome found (λ op. IsReady (length problem.now.ops.now) (position_of next.new))) }
{
    let ops = problem.ops;
    let effects = problem.effects;
    if !is_asked {
        return Ok(None);
    }
    let end = ops[state.first].end;
    let mut least = u32::MAX;
    let mut found = None;
    let mut place = problem.earliest.next(ops, state.first, end);
    while place < ops.len() && place < effects.len() {
        let bits = effects[place].changed_mask.count_ones();
        if bits < least
            && take(ops, state, place, next)?
            && !has(dead, next)
            && !has_equal_before(ops, effects, state, place)
        {
            least = bits;
            found = Some(place);
        }
        place = problem.earliest.next(ops, place + 1, end);
    }
    match found {
        Some(place) => {
            if take(ops, state, place, next)? {
                Ok(Some(place))
            } else {
                Ok(None)
            }
        }
        None => Ok(None),
    }
}
