//! Whether a run of the operations that are left may lead to certain bits.

ghost use Rattle.std.specs.Prelude.{◌≡◌, ℕ, ◌^◌, ◌<◌, ◌≤◌, ◌↔◌, false, IsTrue, IfSome, Option, length};
ghost use Rattle.chi_trace.specs.declared.operation.Operation.{Operation};
ghost use Rattle.chi_search.specs.Effects.{Agree, AreEffects, HasEffect};
ghost use Rattle.chi_search.specs.Problems.{IsProblem};
ghost use Rattle.chi_search.specs.Makers.{ArePlaces, CannotMake, IsPart, IsUnmade, MakesNone, MayPrecede, MayPrecedeEach};
ghost use Rattle.chi_search.specs.Paths.{AreEarliest};
ghost use Rattle.chi_search.specs.Positions.{position_of};
ghost use Rattle.chi_search.specs.Within.{IsRun};

use crate::earliest::EarliestStarts;
use crate::effect::Effect;
use crate::problem::Problem;
use crate::state::{State, is_left};
use crate::wanted::wanted_of;
use chi_trace::Operation;

/// The operations before which a run has to stand: the one that comes next, and up to three that come after it. With none it
/// stands before the end.
#[derive(Clone, Copy)]
pub(crate) struct Later {
    pub next: Option<usize>,
    pub second: Option<usize>,
    pub third: Option<usize>,
    pub fourth: Option<usize>,
}

// Whether the operation, by what is known of it, leaves a word with these bits of the mask only where it found them.
fn makes_none(effect: &Effect, word: u64, mask: u64) -> bool
    ensures { IsTrue result → (op : Operation) → HasEffect op effect.now → MakesNone op (Agree mask word) }
{
    effect.changed_mask & mask == 0 || (effect.left ^ word) & (effect.left_mask & mask) != 0
}

// Whether the operation may stand before the other one, or before the end where there is no other.
fn may_precede(ops: &[Operation], place: usize, other: Option<usize>) -> bool
    requires place { place < length ops.now }
    requires other { IfSome other (λ after. after < length ops.now) }
    ensures { IsTrue result ↔ MayPrecede ops.now place other }
{
    match other {
        Some(after) => place != after && ops[place].start <= ops[after].end,
        None => true,
    }
}

// Whether it may stand before each of those that come later.
fn may_precede_each(ops: &[Operation], place: usize, later: Later) -> bool
    requires place { place < length ops.now }
    requires later { ArePlaces ops.now later }
    ensures { IsTrue result ↔ MayPrecedeEach ops.now place later }
{
    may_precede(ops, place, later.next)
        && may_precede(ops, place, later.second)
        && may_precede(ops, place, later.third)
        && may_precede(ops, place, later.fourth)
}

// Whether the operation is left, may stand before those that come later, and may make these bits.
fn may_make(
    ops: &[Operation],
    effects: &[Effect],
    state: &State,
    later: Later,
    word: u64,
    bits: u64,
    place: usize,
) -> bool
    requires effects { AreEffects ops.now effects.now }
    requires each { length ops.now ≤ length effects.now }
    requires place { place < length ops.now }
    requires later { ArePlaces ops.now later }
    ensures { result ≡ false → (mask : ℕ) → CannotMake mask ops.now (position_of state.now) later word bits place }
{
    if makes_none(&effects[place], word, bits) {
        return false;
    }
    if !may_precede_each(ops, place, later) {
        return false;
    }
    is_left(state, ops.len(), place)
}

// The place from which on no operation may stand before the other one.
fn bound_of(ops: &[Operation], earliest: &EarliestStarts, other: Option<usize>) -> usize
    requires earliest { AreEarliest ops.now earliest.now }
    requires other { IfSome other (λ after. after < length ops.now) }
    ensures within { result ≤ length ops.now }
    ensures late { (i : ℕ) → result ≤ i → i < length ops.now → MayPrecede ops.now i other → ⊥ }
{
    match other {
        Some(after) => earliest.past(ops, after, ops[after].end),
        None => ops.len(),
    }
}

/// Whether a run that stands before those that come later may lead to these bits of the word, as far as can be seen from so
/// many of its last operations, and from as many operations as may be asked. The bits are bits of the mask, which is that of a run
/// of bytes.
pub(crate) fn has_maker(
    problem: &Problem,
    state: &State,
    later: Later,
    word: u64,
    bits: u64,
    mask: u64,
    depth: usize,
    asked: &mut usize,
) -> bool
    requires problem { IsProblem problem.now }
    requires each { length problem.now.ops.now ≤ length problem.now.effects.now }
    requires later { ArePlaces problem.now.ops.now later }
    requires run { IsRun mask }
    requires bits { IsPart bits mask }
    ensures { result ≡ false → IsUnmade mask problem.now.ops.now (position_of state.now) later word bits }
{
    let ops = problem.ops;
    let effects = problem.effects;
    if (word ^ state.word) & bits == 0 {
        return true;
    }
    let mut place = bound_of(ops, problem.earliest, later.next);
    while place > state.first {
        place -= 1;
        if *asked == 0 {
            return true;
        }
        *asked -= 1;
        if may_make(ops, effects, state, later, word, bits, place) {
            if depth == 0 {
                return true;
            }
            let wanted = wanted_of(&ops[place], &effects[place], word, bits, mask);
            let before = Later {
                next: Some(place),
                second: later.next,
                third: later.second,
                fourth: later.third,
            };
            if has_maker(
                problem,
                state,
                before,
                wanted.word,
                wanted.bits,
                mask,
                depth - 1,
                asked,
            ) {
                return true;
            }
            if wanted.other != wanted.word
                && has_maker(
                    problem,
                    state,
                    before,
                    wanted.other,
                    wanted.bits,
                    mask,
                    depth - 1,
                    asked,
                )
            {
                return true;
            }
        }
    }
    false
}
