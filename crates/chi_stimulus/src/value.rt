//! Values by chance, many of them at an edge of signed or unsigned order or of carry.

ghost use Rattle.std.specs.Prelude.{◌≤◌};

use rand::RngExt;
use rand_core::Rng;

/// An operand as a number: how many bits it has, and what the memory holds there.
#[derive(Clone, Copy, Debug)]
pub(crate) struct OperandValue {
    pub(crate) bits: u32,
    pub(crate) value: u64,
}

/// The greatest unsigned number of so many bits.
pub(crate) fn ones(bits: u32) -> u64 {
    u64::MAX >> (64 - bits.clamp(1, 64))
}

/// The number of so many bits of which only the sign is 1.
fn sign(bits: u32) -> u64
    ensures { 1 ≤ result }
{
    ones(bits) / 2 + 1
}

/// A number beside an edge: of 0, of the least signed one, of a carry into the second byte, or of the one that is found.
fn edge<R: Rng>(rng: &mut R, found: OperandValue) -> u64 {
    let edge = match rng.random_range(0u8..6) {
        0 => 0,
        1 | 2 => sign(found.bits),
        3 => 0x100,
        4 => found.value,
        _ => found.value.wrapping_neg(),
    };
    match rng.random_range(0u8..4) {
        0 => edge.wrapping_sub(1),
        1 => edge.wrapping_add(1),
        _ => edge,
    }
}

/// A number: three times of four one beside an edge.
pub(crate) fn any<R: Rng>(rng: &mut R, found: OperandValue) -> u64 {
    if rng.random_range(0u8..4) == 0 {
        rng.next_u64()
    } else {
        edge(rng, found)
    }
}

/// What has to be sent so that this operation (ADD is 0, UMIN 7) leaves what is found.
fn keeping<R: Rng>(rng: &mut R, operation: u8, found: OperandValue) -> u64 {
    match operation {
        0 | 2 => 0,
        1 => rng.next_u64() & !found.value,
        3 => rng.next_u64() & found.value,
        _ => found.value,
    }
}

/// Whether this operation can leave a number of the other sign.
fn can_turn(operation: u8, found: OperandValue) -> bool {
    let is_negative = found.value & sign(found.bits) != 0;
    match operation {
        0 | 2 => true,
        1 | 4 | 7 => is_negative,
        _ => !is_negative,
    }
}

/// What has to be sent so that this operation leaves a number of the other sign, where it can.
fn turning<R: Rng>(rng: &mut R, operation: u8, found: OperandValue) -> u64 {
    let sign = sign(found.bits);
    match operation {
        0 | 5 => sign,
        1 | 2 | 3 => sign | rng.next_u64(),
        4 | 7 => sign - 1,
        _ => u64::MAX,
    }
}

/// What an AtomicStore or an AtomicLoad of this operation sends: what keeps the number that is found, what leaves one of the
/// other sign, or any.
pub(crate) fn sent<R: Rng>(rng: &mut R, operation: u8, found: OperandValue) -> u64 {
    match rng.random_range(0u8..4) {
        0 => keeping(rng, operation, found),
        1 | 2 if can_turn(operation, found) => turning(rng, operation, found),
        _ => any(rng, found),
    }
}

/// The compare value of an AtomicCompare: in half of the draws the one that is found.
pub(crate) fn compared<R: Rng>(rng: &mut R, found: OperandValue) -> u64 {
    match rng.random_range(0u8..4) {
        0 | 1 => found.value,
        2 => found.value ^ 1 << rng.random_range(0..found.bits.clamp(1, 64)),
        _ => any(rng, found),
    }
}
