//! What an atomic leaves in its operand.

ghost use Rattle.std.specs.Prelude.{◌≡◌, ◌≤◌, ◌<◌, ◌+◌, ◌%◌, ◌^◌, if◌then◌else◌, nat_lt, int_lt};
ghost use Rattle.chi_lanes.specs.Bytes.{number_in, signed_number_in, bytes, little_bytes};
ghost use Rattle.chi_lanes.specs.Combination.{combine};

use crate::byte_order::swap_order;
use chi_fields::Op;

/// What `len` bytes spell, big-endian where `endian` is true, if `value` is their little-endian
/// number. It turns such a number back, too.
#[inline]
fn ordered(endian: bool, len: usize, value: u64) -> u64
    requires some { 1 ≤ len }
    requires most { len ≤ 8 }
    requires fits { value < 256 ^ len }
    ensures number { result ≡ number_in endian (little_bytes len value) }
    ensures below { result < 256 ^ len }
{
    if endian {
        swap_order(value, len)
    } else {
        value
    }
}

/// The sum of two operands of `len` bytes, without the carry out of the highest byte.
#[inline]
fn sum(endian: bool, len: usize, old: u64, sent: u64) -> u64
    requires some { 1 ≤ len }
    requires most { len ≤ 8 }
    requires old_fits { old < 256 ^ len }
    requires sent_fits { sent < 256 ^ len }
    ensures below { result < 256 ^ len }
    ensures bytes { let x = number_in endian (little_bytes len old) in
        let y = number_in endian (little_bytes len sent) in
        little_bytes len result ≡ bytes endian len ((x + y) % 256 ^ len) }
{
    let mask = u64::MAX >> (64 - 8 * len);
    let total = ordered(endian, len, old).wrapping_add(ordered(endian, len, sent)) & mask;
    ordered(endian, len, total)
}

/// Whether the first of two operands of `len` bytes is the smaller number, without a sign.
#[inline]
fn is_less(endian: bool, len: usize, x: u64, y: u64) -> bool
    requires some { 1 ≤ len }
    requires most { len ≤ 8 }
    requires x_fits { x < 256 ^ len }
    requires y_fits { y < 256 ^ len }
    ensures { result ≡ nat_lt (number_in endian (little_bytes len x)) (number_in endian (little_bytes len y)) }
{
    ordered(endian, len, x) < ordered(endian, len, y)
}

/// Whether the first of two operands of `len` bytes is the smaller number, in two's complement.
#[inline]
fn is_less_signed(endian: bool, len: usize, x: u64, y: u64) -> bool
    requires some { 1 ≤ len }
    requires most { len ≤ 8 }
    requires x_fits { x < 256 ^ len }
    requires y_fits { y < 256 ^ len }
    ensures { result ≡ int_lt (signed_number_in endian (little_bytes len x)) (signed_number_in endian (little_bytes len y)) }
{
    let sign = 1 << (8 * len - 1);
    ordered(endian, len, x) ^ sign < ordered(endian, len, y) ^ sign
}

/// The operand that was sent, where it is to be left, and else the old one.
#[inline]
fn sent_if(is_left: bool, old: u64, sent: u64) -> u64
    ensures { result ≡ (if is_left then sent else old) }
{
    if is_left { sent } else { old }
}

/// The number that an atomic leaves in an operand of `len` bytes, 1 to 8, that held `old`, where
/// `sent` was sent. All three are the little-endian numbers of their bytes, whatever `endian` says:
/// where it is true, the operation adds or compares the big-endian numbers of the same bytes.
///
/// The bytes `00 ff` are `0xff00`, and the bytes `00 01` are `0x0100`. Added big-endian they make
/// the bytes `01 00`, so `combined(Op::Add, true, 2, 0xff00, 0x0100) == 0x0001`.
#[inline]
pub(crate) fn combined(op: Op, endian: bool, len: usize, old: u64, sent: u64) -> u64
    requires some { 1 ≤ len }
    requires most { len ≤ 8 }
    requires old_fits { old < 256 ^ len }
    requires sent_fits { sent < 256 ^ len }
    ensures below { result < 256 ^ len }
    ensures bytes { little_bytes len result ≡
        combine op endian (little_bytes len old) (little_bytes len sent) }
{
    match op {
        Op::Add => sum(endian, len, old, sent),
        Op::Clr => old & !sent,
        Op::Eor => old ^ sent,
        Op::Set => old | sent,
        Op::SMax => sent_if(is_less_signed(endian, len, old, sent), old, sent),
        Op::SMin => sent_if(is_less_signed(endian, len, sent, old), old, sent),
        Op::UMax => sent_if(is_less(endian, len, old, sent), old, sent),
        Op::UMin => sent_if(is_less(endian, len, sent, old), old, sent),
    }
}
