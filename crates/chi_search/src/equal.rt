//! Operations that do the same, of which one need be tried.

ghost use Rattle.std.specs.Prelude.{◌≡◌, ◌<◌, IsTrue, length};
ghost use Rattle.chi_search.specs.Equal.{AreEqual, HasEqualBefore};
ghost use Rattle.chi_search.specs.Positions.{position_of};

use crate::at_word::is_same;
use crate::effect::Effect;
use crate::state::{State, is_left};
use chi_fields::Access;
use chi_lanes::Reply;
use chi_trace::Operation;

/// How many operations before a place are asked whether they are equal.
const LOOKED_BACK: usize = 256;

/// Whether two operands are the same bytes, in the same byte order.
pub(crate) fn is_same_operand(access: &Access, other: &Access) -> bool
    ensures { IsTrue result → (access.now.addr ≡ other.now.addr) × (access.now.len ≡ other.now.len) × (access.now.endian ≡ other.now.endian) }
{
    access.addr() == other.addr()
        && access.len() == other.len()
        && access.endian() == other.endian()
}

// Whether two accesses do the same with the same data.
fn is_same_action(access: &Access, other: &Access) -> bool
    ensures { IsTrue result → (access.now.kind ≡ other.now.kind) × (access.now.enables ≡ other.now.enables) × (access.now.lanes ≡ other.now.lanes) }
{
    access.kind() == other.kind()
        && access.enables() == other.enables()
        && access.lanes() == other.lanes()
}

// Whether two accesses are the same.
fn is_same_access(access: &Access, other: &Access) -> bool
    ensures { IsTrue result → access.now ≡ other.now }
{
    is_same_operand(access, other) && is_same_action(access, other)
}

// Whether two replies, which may not have been seen, are the same.
fn is_same_seen(reply: Option<Reply>, other: Option<Reply>) -> bool
    ensures { IsTrue result → reply ≡ other }
{
    match (reply, other) {
        (Some(reply), Some(other)) => is_same(reply, other),
        (None, None) => true,
        _ => false,
    }
}

/// Whether two operations do the same and were answered the same.
pub(crate) fn are_equal(op: &Operation, other: &Operation) -> bool
    ensures { IsTrue result → AreEqual op.now other.now }
{
    is_same_seen(op.reply, other.reply) && is_same_access(&op.access, &other.access)
}

/// Whether an equal operation that can come next as well stands before the place, not far from it, where something is known of the
/// operations.
pub(crate) fn has_equal_before(
    ops: &[Operation],
    effects: &[Effect],
    state: &State,
    place: usize,
) -> bool
    requires first { state.now.first < length ops.now }
    requires place { place < length ops.now }
    ensures { IsTrue result → HasEqualBefore ops.now (position_of state.now) place }
{
    if effects.len() < ops.len() {
        return false;
    }
    let end = ops[state.first].end;
    let op = &ops[place];
    let from = state.first.max(place.saturating_sub(LOOKED_BACK));
    for before in from..place {
        // Of most it is seen by what they find and leave that they are not equal.
        if effects[before].found == effects[place].found
            && effects[before].left == effects[place].left
            && ops[before].start <= end
            && is_left(state, ops.len(), before)
            && are_equal(op, &ops[before])
        {
            return true;
        }
    }
    false
}
