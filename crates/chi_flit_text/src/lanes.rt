//! The lanes and the byte enables of a flit's data.

ghost use Rattle.std.specs.Prelude.{◌≡◌, ◌≤◌, ◌<◌, ◌+◌, ◌*◌, map, length};
ghost use Rattle.std.specs.List.{range_with_len};
ghost use Rattle.chi_lanes.specs.Combination.{from_bits};
ghost use Rattle.chi_flit_text.specs.Lanes.{byte_of, chunk_at, chunk_of, chunks_of, enables_of, lane_of, unknown_of};

use crate::digits::{Bits, bits_of, group};
use chi_flits::Chunk;

/// A lane, where it is known.
#[tactic(auto, unfolding(crate::specs::Lanes::lane_of))]
fn lane(digits: &[u8], place: usize) -> Option<u8>
    requires few { place < 64 }
    requires there { 2 * (place + 1) ≤ length digits.now }
    ensures { result ≡ lane_of digits.now place }
{
    match bits_of(group(digits, 2, place)).value() {
        Some(byte) => Some(byte as u8),
        None => None,
    }
}

/// The bytes of 16 lanes, with 0 for each that is not known, and a bit for each of those.
fn lanes(digits: &[u8], first: usize) -> ([u8; 16], u16)
    requires few { first ≤ 48 }
    requires there { 2 * (first + 16) ≤ length digits.now }
    ensures bytes { result.0 ≡ map (λ i. byte_of digits.now (first + i)) (range_with_len 0 16) }
    ensures unknown { result.1 ≡ from_bits 16 (λ i. unknown_of digits.now (first + i)) }
{
    let mut lanes = [0; 16];
    let mut unknown = 0;
    for i in 0..16 {
        let lane = lane(digits, first + i);
        lanes[i] = lane.unwrap_or(0);
        if lane.is_none() {
            unknown |= 1 << i;
        }
    }
    (lanes, unknown)
}

/// The enables of 16 lanes, where there are any.
#[tactic(auto, unfolding(crate::specs::Lanes::enables_of))]
fn enables(be: &[u8], quarter: usize) -> Bits
    requires { quarter < 4 }
    ensures value { result ≡ enables_of be.now quarter }
    ensures known_fits { result.known < 65536 }
    ensures unknown_fits { result.unknown < 65536 }
{
    if 4 * (quarter + 1) <= be.len() {
        bits_of(group(be, 4, quarter))
    } else {
        Bits {
            known: 0,
            unknown: 0,
        }
    }
}

/// A quarter of the line that a flit has, counted from its first, where it is so wide.
#[tactic(auto, unfolding(crate::specs::Lanes::chunk_at, crate::specs::Lanes::chunk_of))]
fn chunk(be: &[u8], digits: &[u8], quarter: usize) -> Option<Chunk>
    requires { quarter < 4 }
    ensures { result ≡ chunk_at be.now digits.now quarter }
{
    if 32 * (quarter + 1) > digits.len() {
        return None;
    }
    let enables = enables(be, quarter);
    let (lanes, unknown) = lanes(digits, 16 * quarter);
    Some(Chunk {
        be: enables.known as u16,
        unknown_be: enables.unknown as u16,
        lanes,
        unknown,
    })
}

/// The quarters of the line that a flit has, from its first on.
pub(crate) fn chunks(be: &[u8], digits: &[u8]) -> [Option<Chunk>; 4]
    ensures { result ≡ chunks_of be.now digits.now }
{
    [
        chunk(be, digits, 0),
        chunk(be, digits, 1),
        chunk(be, digits, 2),
        chunk(be, digits, 3),
    ]
}
