//! What an operation may leave in the bits of a mask, where only these bits of the word before it are known.

ghost use Rattle.std.specs.Prelude.{◌≡◌, ℕ, ◌+◌, ◌^◌, ◌≤◌};
ghost use Rattle.chi_search.specs.Effects.{HasEffect, IsBitwise, IsSum};
ghost use Rattle.chi_search.specs.Outcomes.{AreOutcomes, IfKnown};
ghost use Rattle.chi_search.specs.Within.{IsRun};

use crate::at_word::step;
use crate::effect::{Effect, operand_mask};
use chi_fields::{Kind, Op};
use chi_trace::Operation;

/// The words of which one has the bits that the operation leaves: none, one or two; or they are not known.
#[derive(Clone, Copy)]
pub(crate) enum Outcomes {
    Problem {
        one: Option<u64>,
        other: Option<u64>,
    },
    Unknown,
}

// Of an operation whose operand is all within the mask.
fn whole_outcome(op: &Operation, mask: u64, word: u64) -> Outcomes
    requires within { op.now.access.addr + op.now.access.len ≤ 2 ^ 52 }
    ensures { IfKnown result (AreOutcomes mask op.now word) }
{
    if operand_mask(op) & !mask != 0 {
        return Outcomes::Unknown;
    }
    Outcomes::Problem {
        one: step(op, word),
        other: None,
    }
}

// Of one that is known to leave each bit of the mask as it was, or certain bits there.
fn outcomes_by_effect(op: &Operation, effect: &Effect, mask: u64, word: u64) -> Outcomes
    requires effect { HasEffect op.now effect.now }
    ensures { IfKnown result (AreOutcomes mask op.now word) }
{
    let left_mask = effect.left_mask;
    if effect.changed_mask & mask & !left_mask != 0 {
        return Outcomes::Unknown;
    }
    if (effect.found ^ word) & (effect.found_mask & mask) != 0 {
        return Outcomes::Problem {
            one: None,
            other: None,
        };
    }
    Outcomes::Problem {
        one: Some((word & !left_mask) | (effect.left & left_mask)),
        other: if effect.may_stay { Some(word) } else { None },
    }
}

// Of one that makes each bit of that bit alone.
fn bitwise_outcome(op: &Operation, mask: u64, word: u64) -> Outcomes
    requires within { op.now.access.addr + op.now.access.len ≤ 2 ^ 52 }
    requires bitwise { IsBitwise op.now.access.kind }
    ensures { IfKnown result (AreOutcomes mask op.now word) }
{
    // What is true of each access is known here once it is read.
    let _addr = op.access.addr();
    match step(op, word) {
        Some(after) => Outcomes::Problem {
            one: Some(after),
            other: None,
        },
        None => Outcomes::Unknown,
    }
}

// Of a sum: what it is in these bytes depends on the others by one carry.
fn sum_outcomes(op: &Operation, mask: u64, word: u64) -> Outcomes
    requires within { op.now.access.addr + op.now.access.len ≤ 2 ^ 52 }
    requires sum { IsSum op.now.access.kind }
    requires run { IsRun mask }
    ensures { IfKnown result (AreOutcomes mask op.now word) }
{
    // What is true of each access is known here once it is read.
    let _addr = op.access.addr();
    match (step(op, word & mask), step(op, word | !mask)) {
        (Some(low), Some(high)) => Outcomes::Problem {
            one: Some(low),
            other: Some(high),
        },
        _ => Outcomes::Unknown,
    }
}

/// What the operation may leave of a word of which the bits of the mask are known, the mask of a run of bytes.
pub(crate) fn outcomes_of(op: &Operation, effect: &Effect, mask: u64, word: u64) -> Outcomes
    requires within { op.now.access.addr + op.now.access.len ≤ 2 ^ 52 }
    requires effect { HasEffect op.now effect.now }
    requires run { IsRun mask }
    ensures { IfKnown result (AreOutcomes mask op.now word) }
{
    if let Outcomes::Problem { one, other } = whole_outcome(op, mask, word) {
        return Outcomes::Problem { one, other };
    }
    if let Outcomes::Problem { one, other } = outcomes_by_effect(op, effect, mask, word) {
        return Outcomes::Problem { one, other };
    }
    match op.access.kind() {
        Kind::Store(Op::Eor) | Kind::Load(Op::Eor) => bitwise_outcome(op, mask, word),
        Kind::Store(Op::Add) | Kind::Load(Op::Add) => sum_outcomes(op, mask, word),
        _ => Outcomes::Unknown,
    }
}
