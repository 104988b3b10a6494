//! Operations that may come next wherever they can, since they can be moved before all others that might.

ghost use Rattle.std.specs.Prelude.{◌≡◌, ◌+◌, ◌^◌, ◌<◌, ◌≤◌, false, IfNone, IfSome, IsTrue, length};
ghost use Rattle.chi_search.specs.Commuting.{AgreeWhereShared, GoesFirst, MovesBefore, MovesBeforeAll, Passes};
ghost use Rattle.chi_search.specs.Paths.{AreEarliest};
ghost use Rattle.chi_search.specs.Positions.{IsReady, position_of};
ghost use Rattle.chi_search.specs.Searchable.{AreSorted, AreWithin};

use crate::earliest::EarliestStarts;
use crate::equal::is_same_operand;
use crate::state::{State, is_left};
use chi_fields::{Access, Kind};
use chi_trace::Operation;

// Whether the operands are of one granule, and have no byte in common.
fn are_apart(op: &Operation, other: &Operation) -> bool
    requires within { op.now.access.addr + op.now.access.len ≤ 2 ^ 52 }
    requires other { other.now.access.addr + other.now.access.len ≤ 2 ^ 52 }
    ensures { IsTrue result → MovesBefore op.now other.now }
{
    let (start, other_start) = (op.access.addr(), other.access.addr());
    let (end, other_end) = (
        start + op.access.len() as u64,
        other_start + other.access.len() as u64,
    );
    start / 8 == other_start / 8 && (end <= other_start || other_end <= start)
}

// Whether both are an AtomicStore of one kind, on one operand.
fn are_like_stores(op: &Operation, other: &Operation) -> bool
    ensures { IsTrue result → MovesBefore op.now other.now }
{
    match (op.access.kind(), other.access.kind()) {
        (Kind::Store(kind), Kind::Store(other_kind)) => {
            kind == other_kind && is_same_operand(&op.access, &other.access)
        }
        _ => false,
    }
}

// Whether two data packets are the same in each lane that both accesses enable.
fn agree(access: &Access, other: &Access) -> bool
    ensures { IsTrue result → AgreeWhereShared access.now other.now }
{
    let both = access.enables() & other.enables();
    let (lanes, other_lanes) = (access.lanes(), other.lanes());
    for lane in 0..16 {
        if both >> lane & 1 == 1 && lanes[lane] != other_lanes[lane] {
            return false;
        }
    }
    true
}

// Whether both are writes of one granule that agree on each byte that both write.
fn are_agreeing_writes(op: &Operation, other: &Operation) -> bool
    ensures { IsTrue result → MovesBefore op.now other.now }
{
    match (op.access.kind(), other.access.kind()) {
        (Kind::Write, Kind::Write) => {
            op.granule() == other.granule() && agree(&op.access, &other.access)
        }
        _ => false,
    }
}

/// Whether an operation is seen to be one that can come right before another wherever it can come right after it.
pub(crate) fn moves_before(op: &Operation, other: &Operation) -> bool
    requires within { op.now.access.addr + op.now.access.len ≤ 2 ^ 52 }
    requires other { other.now.access.addr + other.now.access.len ≤ 2 ^ 52 }
    ensures { IsTrue result → MovesBefore op.now other.now }
{
    are_apart(op, other) || are_like_stores(op, other) || are_agreeing_writes(op, other)
}

// Whether the other operation is left, starts by the end of this one, and is not seen to be one before which this can be moved.
fn stops(ops: &[Operation], state: &State, place: usize, other: usize) -> bool
    requires within { AreWithin ops.now }
    requires place { place < length ops.now }
    requires other { other < length ops.now }
    ensures { result ≡ false → Passes ops.now (position_of state.now) place other }
{
    let (op, before) = (&ops[place], &ops[other]);
    if other == place || before.start > op.end || !is_left(state, ops.len(), other) {
        return false;
    }
    !moves_before(op, before)
}

// The place of an operation before which the one at `place` might not be moved, if there is one. The one at `likely` is looked
// at first.
fn stop_of(
    ops: &[Operation],
    earliest: &EarliestStarts,
    state: &State,
    place: usize,
    likely: usize,
) -> Option<usize>
    requires within { AreWithin ops.now }
    requires earliest { AreEarliest ops.now earliest.now }
    requires place { place < length ops.now }
    requires likely { likely < length ops.now }
    ensures some { IfSome result (λ stop. stop < length ops.now) }
    ensures none { IfNone result (MovesBeforeAll ops.now (position_of state.now) place) }
{
    if stops(ops, state, place, likely) {
        return Some(likely);
    }
    let end = ops[place].end;
    let mut other = earliest.next(ops, state.first, end);
    while other < ops.len() {
        if stops(ops, state, place, other) {
            return Some(other);
        }
        other = earliest.next(ops, other + 1, end);
    }
    None
}

/// The place of an operation that can come next, was answered, and is seen to be one that can be moved before all others, if
/// there is one, and it is asked for.
pub(crate) fn commuting_next(
    ops: &[Operation],
    earliest: &EarliestStarts,
    state: &State,
    is_asked: bool,
) -> Option<usize>
    requires sorted { AreSorted ops.now }
    requires within { AreWithin ops.now }
    requires earliest { AreEarliest ops.now earliest.now }
    requires ready { IsReady (length ops.now) (position_of state.now) }
    requires first { state.now.first < length ops.now }
    ensures place { IfSome result (λ place. place < length ops.now) }
    ensures first { IfSome result (λ place. GoesFirst ops.now (position_of state.now) place) }
{
    if !is_asked {
        return None;
    }
    // That the word is one of 64 bits is known here once it is read.
    let _word = state.word;
    let end = ops[state.first].end;
    let mut place = earliest.next(ops, state.first, end);
    let mut stop = state.first;
    while place < ops.len() {
        let op = &ops[place];
        if op.reply.is_some() && is_left(state, ops.len(), place) {
            match stop_of(ops, earliest, state, place, stop) {
                Some(found) => stop = found,
                None => return Some(place),
            }
        }
        place = earliest.next(ops, place + 1, end);
    }
    None
}
