//! The operations of a kind, one after another: each opcode, byte order, length and place in a granule.

ghost use Rattle.std.specs.Prelude.{◌<◌, ◌≤◌};

use rand::RngExt;
use rand_core::Rng;

/// An operation but for its data: which, in which byte order, on `2^power` bytes from which byte of a granule on.
#[derive(Clone, Copy, Debug)]
pub(crate) struct Operation {
    pub(crate) opcode: u8,
    pub(crate) endian: bool,
    pub(crate) power: u8,
    pub(crate) offset: u8,
}

/// How many places of a walk the operands of a granule have: eight of one byte and four of two have one each, two of four bytes
/// have two each, and the one of eight has four.
const OPERANDS: u16 = 20;

/// Steps that have no factor in common with the length of a walk, which is 40 or 320.
const STEPS: [u16; 6] = [1, 3, 7, 11, 13, 17];

/// The first opcode of a kind, and how many there are.
fn opcodes(kind: usize) -> (u8, u8)
    ensures first { result.0 ≤ 57 }
    ensures some { 1 ≤ result.1 }
    ensures most { result.1 ≤ 8 }
{
    match kind {
        0 => (0x04, 1),
        1 => (0x1c, 1),
        2 => (0x28, 8),
        3 => (0x30, 8),
        4 => (0x38, 1),
        _ => (0x39, 1),
    }
}

/// The length of an operand as a power of two, and where it stands in a granule.
fn operand(place: u16) -> (u8, u8)
    ensures power { result.0 ≤ 3 }
    ensures offset { result.1 ≤ 7 }
{
    match place {
        0..=7 => (0, place as u8),
        8..=11 => (1, 2 * (place as u8 - 8)),
        12 | 14 => (2, 0),
        13 | 15 => (2, 4),
        _ => (3, 0),
    }
}

/// A walk over the operations of a kind: each place of it comes once before one comes again.
#[derive(Clone, Copy, Debug)]
pub(crate) struct Walk {
    at: u16,
    step: u16,
    left: u16,
}

impl Walk {
    /// A walk that begins with the next operation.
    pub(crate) fn new() -> Walk {
        Walk {
            at: 0,
            step: 1,
            left: 0,
        }
    }

    /// The next operation of the walk. Where all came it begins again, at another one and by another step.
    pub(crate) fn next<R: Rng>(&mut self, rng: &mut R, kind: usize) -> Operation
        ensures power { result.power ≤ 3 }
        ensures offset { result.offset ≤ 7 }
    {
        let (first, count) = opcodes(kind);
        let length = 2 * OPERANDS * u16::from(count);
        if self.left == 0 {
            self.at = rng.random_range(0..length);
            self.step = STEPS[rng.random_range(0usize..6)];
            self.left = length;
        }
        self.left -= 1;
        self.at = (self.at % length + self.step % 20) % length;
        let (power, offset) = operand(self.at % OPERANDS);
        let endian = self.at / OPERANDS % 2 == 1;
        let which = (self.at / (2 * OPERANDS)) as u8;
        Operation {
            opcode: first + which % count,
            endian,
            power,
            offset,
        }
    }
}

/// A walk for each kind, in the granules of even numbers and in those of odd ones.
#[derive(Clone, Copy, Debug)]
pub(crate) struct Walks {
    even: [Walk; 6],
    odd: [Walk; 6],
}

impl Walks {
    /// Walks that all begin.
    pub(crate) fn new() -> Walks {
        Walks {
            even: [Walk::new(); 6],
            odd: [Walk::new(); 6],
        }
    }

    /// The next operation of a kind, in a granule of this number.
    pub(crate) fn next<R: Rng>(&mut self, rng: &mut R, kind: usize, granule: u16) -> Operation
        requires { kind < 6 }
        ensures power { result.power ≤ 3 }
        ensures offset { result.offset ≤ 7 }
    {
        if granule % 2 == 0 {
            self.even[kind].next(rng, kind)
        } else {
            self.odd[kind].next(rng, kind)
        }
    }
}
