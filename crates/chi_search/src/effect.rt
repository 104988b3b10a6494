//! What is known of an operation before any order of it is searched.

ghost use Rattle.std.specs.Prelude.{◌≡◌, ℕ, ◌+◌, ◌/◌, ◌%◌, ◌^◌, ◌<◌, ◌≤◌, ◌↔◌, Some, IfOk, IfSome, length, slice_index};
ghost use Rattle.std.specs.Int.{bit_at};
ghost use Rattle.chi_fields.specs.Access.{IsLawful, lane_of};
ghost use Rattle.chi_fields.specs.declared.kind.Kind.{Kind};
ghost use Rattle.chi_lanes.specs.Memory.{granule_start};
ghost use Rattle.chi_lanes.specs.declared.reply.Reply.{Reply};
ghost use Rattle.chi_search.specs.Effects.{AreEffects, HasEffect, IsBlind, IsInOperand, IsPick};
ghost use Rattle.chi_search.specs.Searchable.{AreWithin};

use crate::at_word::step;
use chi_fields::{Kind, Op};
use chi_lanes::{Reply, lane_mask};
use chi_trace::Operation;
use std::alloc::{AllocError, Global};

/// What an operation finds and leaves wherever it fits: the word that it finds has the bits of `found` where those of
/// `found_mask` are 1; it changes only bits where those of `changed_mask` are 1; and it leaves the bits of `left` where those
/// of `left_mask` are 1, or, where it may stay, the word as it is.
#[derive(Clone, Copy, Debug)]
pub(crate) struct Effect {
    pub found: u64,
    pub found_mask: u64,
    pub changed_mask: u64,
    pub left: u64,
    pub left_mask: u64,
    /// It may leave the word as it is instead.
    pub may_stay: bool,
}

/// The word whose bytes are 255 in the operand, and 0 elsewhere.
pub(crate) fn operand_mask(op: &Operation) -> u64
    ensures bits { (k : ℕ) → (bit_at result k ≡ 1) ↔ IsInOperand op.now.access k }
    ensures lawful { IsLawful op.now.access }
{
    lane_mask((op.access.addr() % 8) as usize, op.access.len())
}

/// The word of the granule's lanes of a packet: each of its bits is that of the byte in the lane of its address.
pub(crate) fn word_in(op: &Operation, lanes: &[u8; 16]) -> u64
    ensures { (k : ℕ) → k < 64 → bit_at result k ≡ bit_at (slice_index lanes.now (lane_of (granule_start op.now.access.addr + k / 8))) (k % 8) }
{
    let mut bytes = [0; 8];
    if op.access.lane() >= 8 {
        bytes.copy_from_slice(&lanes[8..16]);
    } else {
        bytes.copy_from_slice(&lanes[0..8]);
    }
    u64::from_le_bytes(bytes)
}

// The effect of an operation whose reply has data, where it is seen to fit the word of the reply: it fits no word with
// another operand, and leaves the same operand of each.
fn told_effect(op: &Operation, lanes: [u8; 16]) -> Option<Effect>
    requires reply { op.now.reply ≡ Some (Reply.CompData lanes) }
    requires within { op.now.access.addr + op.now.access.len ≤ 2 ^ 52 }
    ensures { IfSome result (HasEffect op.now) }
{
    let found = word_in(op, &lanes);
    let left = step(op, found)?;
    let mask = operand_mask(op);
    Some(Effect {
        found,
        found_mask: mask,
        changed_mask: found ^ left,
        left,
        left_mask: mask,
        may_stay: false,
    })
}

// The effect of an operation that leaves each bit as it was, or the same whatever it was: what it leaves of 0 and of the
// greatest word has the same bits just where it writes.
fn blind_effect(op: &Operation) -> Option<Effect>
    requires blind { IsBlind op.now.access.kind }
    requires within { op.now.access.addr + op.now.access.len ≤ 2 ^ 52 }
    ensures { IfSome result (HasEffect op.now) }
{
    // What is true of each access is known here once it is read.
    let _addr = op.access.addr();
    let least = step(op, 0)?;
    let greatest = step(op, u64::MAX)?;
    let written = !(least ^ greatest);
    Some(Effect {
        found: 0,
        found_mask: 0,
        changed_mask: written,
        left: least,
        left_mask: written,
        may_stay: false,
    })
}

// The effect of an atomic that keeps the greater or the lesser of two numbers: it writes what was sent, or leaves the word as
// it is.
fn pick_effect(op: &Operation) -> Effect
    requires { IsPick op.now.access.kind }
    ensures { HasEffect op.now result }
{
    let mask = operand_mask(op);
    Effect {
        found: 0,
        found_mask: 0,
        changed_mask: mask,
        left: word_in(op, &op.access.lanes()),
        left_mask: mask,
        may_stay: true,
    }
}

// What is known of each operation: it changes no byte out of its operand.
fn loose_effect(op: &Operation) -> Effect
    ensures { HasEffect op.now result }
{
    Effect {
        found: 0,
        found_mask: 0,
        changed_mask: operand_mask(op),
        left: 0,
        left_mask: 0,
        may_stay: false,
    }
}

// The effect of an operation whose reply has no data.
fn untold_effect(op: &Operation) -> Effect
    requires { op.now.access.addr + op.now.access.len ≤ 2 ^ 52 }
    ensures { HasEffect op.now result }
{
    match op.access.kind() {
        Kind::Read
        | Kind::Write
        | Kind::Swap
        | Kind::Store(Op::Clr | Op::Set)
        | Kind::Load(Op::Clr | Op::Set) => match blind_effect(op) {
            Some(effect) => effect,
            None => loose_effect(op),
        },
        Kind::Store(Op::SMax | Op::SMin | Op::UMax | Op::UMin)
        | Kind::Load(Op::SMax | Op::SMin | Op::UMax | Op::UMin) => pick_effect(op),
        _ => loose_effect(op),
    }
}

// What is known of an operation.
fn effect_of(op: &Operation) -> Effect
    requires { op.now.access.addr + op.now.access.len ≤ 2 ^ 52 }
    ensures { HasEffect op.now result }
{
    match op.reply {
        Some(Reply::CompData(lanes)) => match told_effect(op, lanes) {
            Some(effect) => effect,
            None => loose_effect(op),
        },
        _ => untold_effect(op),
    }
}

/// What is known of each of the operations.
pub(crate) fn effects_of(alloc: Global, ops: &[Operation]) -> Result<Vec<Effect>, AllocError>
    requires { AreWithin ops.now }
    ensures effects { IfOk result (λ effects. AreEffects ops.now effects.items) }
    ensures each { IfOk result (λ effects. length effects.items ≡ length ops.now) }
{
    let mut effects = Vec::with_capacity(alloc, ops.len())?;
    for op in ops {
        effects.push(effect_of(op))?;
    }
    Ok(effects)
}
