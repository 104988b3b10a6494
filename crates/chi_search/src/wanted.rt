//! What an operation finds where it leaves certain bits.

ghost use Rattle.std.specs.Prelude.{◌≡◌, ◌+◌, ◌^◌, ◌≤◌, IfSome};
ghost use Rattle.chi_trace.specs.declared.operation.Operation.{Operation};
ghost use Rattle.chi_search.specs.Effects.{AgreeOutside, HasEffect, IsEor, IsSum};
ghost use Rattle.chi_search.specs.Makers.{IsPart, LeavesOperand, Wants};
ghost use Rattle.chi_search.specs.Within.{IsRun};

use crate::at_word::step;
use crate::effect::{Effect, operand_mask};
use chi_fields::{Kind, Op};
use chi_trace::Operation;

/// Those bits of one word, or of the other one, that are 1 in `bits`.
#[derive(Clone, Copy)]
pub(crate) struct Wanted {
    pub word: u64,
    pub other: u64,
    pub bits: u64,
}

// By what is known of each operation: the bits that it finds in the mask, and those that it does not change.
fn wanted_by_effect(effect: &Effect, word: u64, bits: u64, mask: u64) -> Wanted
    ensures wants { (op : Operation) → HasEffect op effect.now → Wants op bits word result }
    ensures within { IsPart bits mask → IsPart result.bits mask }
{
    let found_mask = effect.found_mask;
    let found = (effect.found & found_mask) | (word & !found_mask);
    Wanted {
        word: found,
        other: found,
        bits: (found_mask & mask) | (bits & !effect.changed_mask),
    }
}

// Of an exclusive or: done twice it changes nothing.
fn wanted_by_eor(op: &Operation, word: u64, bits: u64) -> Option<Wanted>
    requires within { op.now.access.addr + op.now.access.len ≤ 2 ^ 52 }
    requires eor { IsEor op.now.access.kind }
    ensures wants { IfSome result (λ wanted. Wants op.now bits word wanted) }
    ensures same { IfSome result (λ wanted. wanted.bits ≡ bits) }
{
    // What is true of each access is known here once it is read.
    let _addr = op.access.addr();
    let found = step(op, word)?;
    Some(Wanted {
        word: found,
        other: found,
        bits,
    })
}

// The word of which a sum leaves the operand of another word in the mask, and whose bits are those of `rest` out of the mask.
fn difference(op: &Operation, word: u64, mask: u64, rest: u64) -> Option<u64>
    requires { op.now.access.addr + op.now.access.len ≤ 2 ^ 52 }
    ensures outside { IfSome result (λ found. AgreeOutside mask found rest) }
    ensures left { IfSome result (λ found. LeavesOperand mask op.now found word) }
{
    let operand = operand_mask(op);
    // Of a word turned over the sum is the difference turned over; the other bytes carry into it what those of `rest` do.
    let turned = step(op, (!word & mask) | (rest & !mask))?;
    let found = (!turned & mask) | (rest & !mask);
    let left = step(op, found)?;
    if (left ^ word) & (operand & mask) != 0 {
        return None;
    }
    Some(found)
}

// Of a sum whose operand's bits of the mask are all among these bits: the difference, with a borrow from the other bytes or
// without, since no other number has this sum.
fn wanted_by_sum(op: &Operation, word: u64, bits: u64, mask: u64) -> Option<Wanted>
    requires within { op.now.access.addr + op.now.access.len ≤ 2 ^ 52 }
    requires sum { IsSum op.now.access.kind }
    requires run { IsRun mask }
    requires bits { IsPart bits mask }
    ensures wants { IfSome result (λ wanted. Wants op.now bits word wanted) }
    ensures same { IfSome result (λ wanted. wanted.bits ≡ bits) }
{
    let operand = operand_mask(op);
    if (operand & mask) & !bits != 0 {
        return None;
    }
    let low = difference(op, word, mask, 0)?;
    let high = difference(op, word, mask, u64::MAX)?;
    Some(Wanted {
        word: (low & operand) | (word & !operand),
        other: (high & operand) | (word & !operand),
        bits,
    })
}

/// What the operation finds in the bits of the mask, which is that of a run of bytes, where it leaves these bits of the word.
pub(crate) fn wanted_of(op: &Operation, effect: &Effect, word: u64, bits: u64, mask: u64) -> Wanted
    requires addresses { op.now.access.addr + op.now.access.len ≤ 2 ^ 52 }
    requires effect { HasEffect op.now effect.now }
    requires run { IsRun mask }
    requires bits { IsPart bits mask }
    ensures wants { Wants op.now bits word result }
    ensures within { IsPart result.bits mask }
{
    if effect.found_mask != 0 {
        return wanted_by_effect(effect, word, bits, mask);
    }
    let wanted = match op.access.kind() {
        Kind::Store(Op::Eor) | Kind::Load(Op::Eor) => wanted_by_eor(op, word, bits),
        Kind::Store(Op::Add) | Kind::Load(Op::Add) => wanted_by_sum(op, word, bits, mask),
        _ => None,
    };
    match wanted {
        Some(wanted) => wanted,
        None => wanted_by_effect(effect, word, bits, mask),
    }
}
