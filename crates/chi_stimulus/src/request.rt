//! A request by chance, of an operation on a granule that is known.

ghost use Rattle.std.specs.Prelude.{◌≡◌, ◌≤◌};
ghost use Rattle.chi_stimulus.specs.Operand.{IsOperand};

use crate::chance::packet;
use crate::operation::Operation;
use crate::value::{OperandValue, any, compared, ones, sent};
use chi_fields::Request;
use rand::RngExt;
use rand_core::Rng;

/// An operand in the data packet: its first lane, how many lanes it has, and its byte order.
#[derive(Clone, Copy, Debug)]
struct Operand {
    lane: u32,
    len: u32,
    endian: bool,
}

/// Who sends a request, and where.
#[derive(Clone, Copy, Debug)]
pub(crate) struct Sender {
    pub(crate) src: u8,
    pub(crate) txn: u8,
    pub(crate) addr: u64,
}

/// How many bytes an operand of this power of two has.
fn len_of(power: u8) -> u32
    ensures some { 1 ≤ result }
    ensures most { result ≤ 8 }
{
    match power {
        0 => 1,
        1 => 2,
        2 => 4,
        _ => 8,
    }
}

/// A number of so many bytes with them in the other order.
fn turned(number: u64, len: u32) -> u64
    requires some { 1 ≤ len }
    requires most { len ≤ 8 }
{
    number.swap_bytes() >> (64 - 8 * len)
}

/// The number that an operand's bytes are, of a number whose least significant byte is the first of them; and the other way round.
fn in_order(number: u64, operand: Operand) -> u64
    requires { IsOperand operand }
{
    if operand.endian {
        turned(number, operand.len)
    } else {
        number
    }
}

/// So many lanes from a first one on.
fn lanes_from(first: u32, len: u32) -> u16
    requires first { first ≤ 15 }
    requires len { len ≤ 16 }
{
    let lanes = u32::from(u16::MAX) >> (16 - len);
    ((lanes << first) & 0xffff) as u16
}

/// A data packet with a number of so many bytes from a lane on, least significant first.
fn placed(packet: u128, number: u64, lane: u32, len: u32) -> u128
    requires lane { lane ≤ 15 }
    requires len { len ≤ 8 }
{
    let shift = 8 * lane;
    let mask = u128::from(ones(8 * len));
    packet & !(mask << shift) | (u128::from(number) & mask) << shift
}

/// The byte enables of a write: none of its operand, all, or some.
fn write_enables<R: Rng>(rng: &mut R, operand: Operand) -> u16
    requires { IsOperand operand }
{
    let all = lanes_from(operand.lane, operand.len);
    match rng.random_range(0u8..4) {
        0 => 0,
        1 => all,
        _ => all & (rng.next_u32() & 0xffff) as u16,
    }
}

/// The first lane of an AtomicCompare's window, which is aligned to its length.
fn window_first(operand: Operand) -> u32
    requires { IsOperand operand }
    ensures { result ≤ operand.lane }
{
    operand.lane - operand.lane % (2 * operand.len)
}

/// The byte enables and the data of a request. What lies outside the operand, or the window, is by chance.
fn data<R: Rng>(rng: &mut R, opcode: u8, operand: Operand, word: u64) -> (u16, u128)
    requires { IsOperand operand }
{
    let Operand { lane, len, .. } = operand;
    let packet = packet(rng);
    let found = OperandValue {
        bits: 8 * len,
        value: in_order(word & ones(8 * len), operand),
    };
    let value = match opcode {
        0x28..=0x37 => sent(rng, opcode % 8, found),
        0x39 => compared(rng, found),
        _ => any(rng, found),
    };
    let packet = placed(packet, in_order(value, operand), lane, len);
    match opcode {
        0x04 => (0, packet),
        0x1c => (write_enables(rng, operand), packet),
        0x39 => {
            let first = window_first(operand);
            let other = if lane == first {
                (first + len) % 16
            } else {
                first
            };
            let swap = in_order(any(rng, found), operand);
            (lanes_from(first, 2 * len), placed(packet, swap, other, len))
        }
        _ => (lanes_from(lane, len), packet),
    }
}

/// The request of an operation, sent to a granule that holds a word.
pub(crate) fn drawn<R: Rng>(rng: &mut R, sender: Sender, operation: Operation, word: u64) -> Request
    requires power { operation.power ≤ 3 }
    requires offset { operation.offset ≤ 7 }
    ensures src { result.src ≡ sender.src }
    ensures size { result.size ≤ 4 }
{
    let operand = Operand {
        lane: (sender.addr % 16) as u32,
        len: len_of(operation.power),
        endian: operation.endian,
    };
    let (be, packet) = data(
        rng,
        operation.opcode,
        operand,
        word >> (8 * operation.offset),
    );
    let size = if operation.opcode == 0x39 {
        operation.power + 1
    } else {
        operation.power
    };
    Request {
        src: sender.src,
        txn: sender.txn,
        opcode: operation.opcode,
        size,
        addr: sender.addr,
        endian: operation.endian,
        be,
        lanes: packet.to_le_bytes(),
    }
}
