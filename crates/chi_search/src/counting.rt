//! Numbers of a counter that no sums can make. A counter is an operand that is only added to.

ghost use Rattle.std.specs.Prelude.{◌≡◌, ◌+◌, ◌^◌, ◌<◌, ◌≤◌, IfSome, IsTrue, Some, length, slice_index_or, true};
ghost use Rattle.chi_fields.specs.Access.{IsLawful};
ghost use Rattle.chi_trace.specs.Explains.{at, is_answered};
ghost use Rattle.chi_search.specs.Counters.{IsBeyond, IsSpan, added, counter_of, down_by, sent_number, up_by};
ghost use Rattle.chi_search.specs.Effects.{no_effect};
ghost use Rattle.chi_search.specs.Makers.{IsPart};
ghost use Rattle.chi_search.specs.Positions;
ghost use Rattle.chi_search.specs.Positions.{position_of};
ghost use Rattle.chi_search.specs.Problems.{IsProblem};
ghost use Rattle.chi_search.specs.Within.{IsDeadWithin};

use crate::effect::operand_mask;
use crate::equal::is_same_operand;
use crate::makers::must_find;
use crate::problem::Problem;
use crate::state::{State, is_left};
use chi_fields::{Access, Kind, Op};
use chi_lanes::{compare_half, extract, lane_mask, swap_order};
use chi_trace::Operation;

/// How many operations are looked at whether they find what no sums can make.
const LOOKED_AT: usize = 512;

/// How far sums can take a counter from its number, up and down.
#[derive(Clone, Copy)]
pub(crate) struct Span {
    pub up: u64,
    pub down: u64,
}

// The number of an operand's bytes in a word, in its byte order.
fn number_in(access: &Access, word: u64) -> u64
    ensures number { result ≡ counter_of access.now word }
    ensures below { result < 256 ^ access.now.len }
{
    let number = extract(word, (access.addr() % 8) as usize, access.len());
    if access.endian() {
        swap_order(number, access.len())
    } else {
        number
    }
}

// The number that is sent, in the operand's byte order.
fn number_sent(access: &Access) -> u64
    ensures number { result ≡ sent_number access.now }
    ensures below { result < 256 ^ access.now.len }
{
    let number = compare_half(&access.lanes(), access.lane(), access.len());
    if access.endian() {
        swap_order(number, access.len())
    } else {
        number
    }
}

// What the operation adds, if it is a sum.
fn added_by(op: &Operation) -> Option<u64>
    ensures added { result ≡ added op.now }
    ensures lawful { IsLawful op.now.access }
    ensures below { IfSome result (λ number. number < 256 ^ op.now.access.len) }
{
    // What is true of each access is known here once it is read.
    let _addr = op.access.addr();
    match op.access.kind() {
        Kind::Store(Op::Add) | Kind::Load(Op::Add) => Some(number_sent(&op.access)),
        _ => None,
    }
}

// The greatest number of so many bytes.
fn greatest(len: usize) -> u64
    requires some { 1 ≤ len }
    requires most { len ≤ 8 }
    ensures { result + 1 ≡ 256 ^ len }
{
    lane_mask(0, len)
}

// How far sums can go with one more, if that can be said.
fn widened(span: Span, number: u64, len: usize) -> Option<Span>
    requires some { 1 ≤ len }
    requires most { len ≤ 8 }
    requires below { number < 256 ^ len }
    ensures up { IfSome result (λ wider. wider.up ≡ span.up + up_by len (Some number)) }
    ensures down { IfSome result (λ wider. wider.down ≡ span.down + down_by len (Some number)) }
{
    let greatest = greatest(len);
    if number <= greatest / 2 {
        Some(Span {
            up: span.up.checked_add(number)?,
            down: span.down,
        })
    } else {
        Some(Span {
            up: span.up,
            down: span.down.checked_add(greatest - number + 1)?,
        })
    }
}

// The place of the first operation that is left and may change bits of the mask, if it starts by the time and is a sum.
fn first_sum(problem: &Problem, state: &State, until: u64, mask: u64) -> Option<usize>
    requires problem { IsProblem problem.now }
    requires each { length problem.now.ops.now ≤ length problem.now.effects.now }
    ensures { IfSome result (λ place. place < length problem.now.ops.now) }
{
    let ops = problem.ops;
    let mut place = problem.earliest.next(ops, state.first, until);
    while place < ops.len() {
        if is_left(state, ops.len(), place) && problem.effects[place].changed_mask & mask != 0 {
            return match ops[place].access.kind() {
                Kind::Store(Op::Add) | Kind::Load(Op::Add) => Some(place),
                _ => None,
            };
        }
        place = problem.earliest.next(ops, place + 1, until);
    }
    None
}

// How far the sums that are left and start by the time can take a counter, whose bits are 1 in `bits`. It cannot be said where
// another operation that is left and starts by then may change the counter.
fn span_of(
    problem: &Problem,
    state: &State,
    until: u64,
    counter: &Access,
    bits: u64,
) -> Option<Span>
    requires problem { IsProblem problem.now }
    requires each { length problem.now.ops.now ≤ length problem.now.effects.now }
    ensures { IfSome result (IsSpan problem.now.ops.now (position_of state.now) until counter.now bits (length problem.now.ops.now)) }
{
    let ops = problem.ops;
    let mut span = Span { up: 0, down: 0 };
    let mut place = problem.earliest.next(ops, state.first, until);
    while place < ops.len() {
        if is_left(state, ops.len(), place) {
            match added_by(&ops[place]) {
                Some(number) => {
                    if !is_same_operand(&ops[place].access, counter) {
                        return None;
                    }
                    span = widened(span, number, counter.len())?;
                }
                None => {
                    if problem.effects[place].changed_mask & bits != 0 {
                        return None;
                    }
                }
            }
        }
        place = problem.earliest.next(ops, place + 1, until);
    }
    Some(span)
}

// Whether a counter that goes so far from one number does not come to another one.
fn is_beyond(span: Span, from: u64, to: u64, len: usize) -> bool
    requires some { 1 ≤ len }
    requires most { len ≤ 8 }
    requires from { from < 256 ^ len }
    requires to { to < 256 ^ len }
    ensures { IsTrue result → IsBeyond span from to (256 ^ len) }
{
    if from <= to {
        to - from > span.up && greatest(len) - (to - from) >= span.down
    } else {
        from - to > span.down && greatest(len) - (from - to) >= span.up
    }
}

// Whether the operation at a place must find a number of the counter that is beyond reach.
fn finds_beyond(
    problem: &Problem,
    state: &State,
    place: usize,
    counter: &Access,
    bits: u64,
    span: Span,
) -> bool
    requires each { length problem.now.ops.now ≤ length problem.now.effects.now }
    requires place { place < length problem.now.ops.now }
    ensures left { IsTrue result → Positions.is_left (length problem.now.ops.now) (position_of state.now) place ≡ true }
    ensures answered { IsTrue result → is_answered (at problem.now.ops.now place) ≡ true }
    ensures found { IsTrue result → IsPart bits (slice_index_or problem.now.effects.now place no_effect).found_mask }
    ensures below { IsTrue result → (slice_index_or problem.now.effects.now place no_effect).found < 2 ^ 64 }
    ensures word { IsTrue result → state.now.word < 2 ^ 64 }
    ensures beyond { IsTrue result → IsBeyond span (counter_of counter.now state.now.word) (counter_of counter.now (slice_index_or problem.now.effects.now place no_effect).found) (256 ^ counter.now.len) }
{
    if !must_find(problem.ops, state, place) {
        return false;
    }
    let effect = &problem.effects[place];
    if effect.found_mask & bits != bits {
        return false;
    }
    is_beyond(
        span,
        number_in(counter, state.word),
        number_in(counter, effect.found),
        counter.len(),
    )
}

/// Whether an operation that is left must find a number of a counter that the sums that are left cannot make, where nothing else
/// that is left may change the counter. Its bits are bits of the mask, which is that of a run of bytes.
pub(crate) fn is_miscounted(problem: &Problem, state: &State, mask: u64) -> bool
    requires problem { IsProblem problem.now }
    requires each { length problem.now.ops.now ≤ length problem.now.effects.now }
    ensures { IsTrue result → IsDeadWithin mask problem.now.ops.now problem.now.final_word (position_of state.now) }
{
    let ops = problem.ops;
    let last = state.first.saturating_add(LOOKED_AT).min(ops.len());
    if state.first >= last {
        return false;
    }
    let until = ops[last - 1].end;
    let Some(first) = first_sum(problem, state, until, mask) else {
        return false;
    };
    let sum = &ops[first];
    let counter = &sum.access;
    let bits = operand_mask(sum);
    if mask & bits != bits {
        return false;
    }
    let Some(span) = span_of(problem, state, until, counter, bits) else {
        return false;
    };
    for place in state.first..last {
        if finds_beyond(problem, state, place, counter, bits, span) {
            return true;
        }
    }
    false
}
