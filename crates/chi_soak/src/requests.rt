//! Requests by chance, each of which a home accepts.

ghost use Rattle.std.specs.Prelude.{◌≡◌, ◌≤◌, All, IfOk};

use chi_fields::Request;
use rand::RngExt;
use rand_core::Rng;
use std::alloc::{AllocError, Global};

/// The address of the first granule.
pub(crate) const BASE: u64 = 0x1000;

/// How many granules the requests are of: few, so that those of one granule overlap.
pub(crate) const GRANULES: u16 = 8;

/// How many requests each of the four workers has in a round.
pub(crate) const EACH: usize = 256;

// Bytes that come often, so that old bytes are met again and comparisons succeed.
const OFTEN: [u8; 4] = [0x00, 0x01, 0x80, 0xff];

/// A byte: three times of four one of those that come often, and else any.
fn byte<R: Rng>(rng: &mut R) -> u8 {
    if rng.random_range(0u32..4) == 0 {
        (rng.next_u32() & 0xff) as u8
    } else {
        OFTEN[rng.random_range(0usize..4)]
    }
}

/// A granule: in half of the draws the first one.
fn granule<R: Rng>(rng: &mut R) -> u64
    ensures { result ≤ 511 }
{
    if rng.random_range(0u8..2) == 0 {
        0
    } else {
        rng.random_range(0..u64::from(GRANULES))
    }
}

/// An opcode: a read, a write, a swap or a comparison, and otherwise one of the eight operations, half of them with the
/// old bytes returned.
fn opcode<R: Rng>(rng: &mut R) -> u8 {
    let operation = rng.random_range(0u8..8);
    match rng.random_range(0u8..16) {
        0..=2 => 0x04,
        3..=4 => 0x1c,
        5..=6 => 0x38,
        7..=8 => 0x39,
        9..=11 => 0x28 + operation,
        _ => 0x30 + operation,
    }
}

/// How many bytes an operand of this size has.
fn len_of(size: u8) -> u64
    ensures some { 1 ≤ result }
    ensures most { result ≤ 8 }
{
    match size {
        0 => 1,
        1 => 2,
        2 => 4,
        _ => 8,
    }
}

/// Byte enables of so many lanes, from lane 0 on.
fn ones(len: u64) -> u16 {
    match len {
        1 => 0x1,
        2 => 0x3,
        4 => 0xf,
        8 => 0xff,
        _ => 0xffff,
    }
}

/// The byte enables of an operand of so many bytes: of a read none, of a write some of the operand's lanes, of a
/// comparison those of its window, and else those of the operand.
fn enables<R: Rng>(rng: &mut R, opcode: u8, lane: u64, len: u64) -> u16
    requires lane { lane ≤ 15 }
    requires some { 1 ≤ len }
    requires most { len ≤ 8 }
{
    let operand = ones(len) << lane;
    match opcode {
        0x04 => 0,
        0x1c => operand & (rng.next_u32() & 0xffff) as u16,
        0x39 => ones(2 * len) << (lane - lane % (2 * len)),
        _ => operand,
    }
}

/// A data packet with bytes by chance in the lanes that are enabled, and 0 in the others. In half of the packets the bytes
/// of each value of so many bytes are the same, so that long values are met again too.
fn packet<R: Rng>(rng: &mut R, be: u16, len: usize) -> [u8; 16]
    requires { 1 ≤ len }
{
    let is_plain = rng.random_range(0u8..2) == 0;
    let values = [byte(rng), byte(rng)];
    let mut lanes = [0; 16];
    for lane in 0..16 {
        if be >> lane & 1 == 1 {
            lanes[lane] = if is_plain {
                values[lane / len % 2]
            } else {
                byte(rng)
            };
        }
    }
    lanes
}

/// A request of this requester, of any kind, size, byte order and place in the granules.
fn request<R: Rng>(rng: &mut R, src: u8, txn: u8) -> Request
    ensures { result.src ≡ src }
{
    let opcode = opcode(rng);
    let size = rng.random_range(0u8..4);
    let len = len_of(size);
    let addr = BASE + 8 * granule(rng) + rng.random_range(0u64..8) / len * len;
    let be = enables(rng, opcode, addr % 16, len);
    Request {
        src,
        txn,
        opcode,
        size: if opcode == 0x39 { size + 1 } else { size },
        addr,
        endian: rng.random_range(0u8..2) == 1,
        be,
        lanes: packet(rng, be, len as usize),
    }
}

/// The requests of a round: `EACH` of each of the requesters 1 to 4, in turn.
pub(crate) fn requests<R: Rng>(rng: &mut R, alloc: Global) -> Result<Vec<Request>, AllocError>
    ensures { IfOk result (λ requests. All (λ q. q.src ≤ 4) requests.items) }
{
    let mut requests = Vec::new(alloc);
    'places: for place in 0..EACH {
        let txn = (place % 256) as u8;
        'workers: for src in 1..5 {
            requests.push(request(rng, src, txn))?;
        }
    }
    Ok(requests)
}
