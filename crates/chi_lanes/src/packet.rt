//! The 16 lanes of a data packet, and the words that stand in them.

ghost use Rattle.std.specs.Prelude.{◌≡◌, ℕ, ◌+◌, ◌*◌, ◌%◌, ◌^◌, ◌<◌, false, slice_index, slice_range, if◌then◌else◌};
ghost use Rattle.std.specs.Int.{bit_at};
ghost use Rattle.chi_fields.specs.Access.{IsLen};
ghost use Rattle.chi_lanes.specs.Bytes.{little_bytes, number_in};
ghost use Rattle.chi_lanes.specs.Packet.{in_lanes, sent, swap_value};

use crate::kernels::extract;

/// 1 in each byte of a word.
const EACH_BYTE: u64 = 0x0101_0101_0101_0101;

/// Bit k in byte k of a word.
const OWN_BIT: u64 = 0x8040_2010_0804_0201;

/// The little-endian number of the packet's lanes 0 to 7, or 8 to 15 for the upper half.
#[inline]
pub(crate) fn packet_half(lanes: &[u8; 16], upper: bool) -> u64
    ensures { let first = if upper then 8 else 0 in
        little_bytes 8 result ≡ slice_range lanes.now first (first + 8) }
{
    let mut bytes = [0; 8];
    if upper {
        bytes.copy_from_slice(&lanes[8..16]);
    } else {
        bytes.copy_from_slice(&lanes[0..8]);
    }
    u64::from_le_bytes(bytes)
}

/// The little-endian number of `len` lanes of a packet from `lane` on: of the sent data and of each half of an
/// AtomicCompare's window.
#[inline]
pub(crate) fn lanes_value(lanes: &[u8; 16], lane: usize, len: usize) -> u64
    requires part { IsLen len }
    requires aligned { lane % len ≡ 0 }
    requires inside { lane < 16 }
    ensures value { result ≡ number_in false (sent lanes.now lane len) }
    ensures below { result < 256 ^ len }
{
    let upper = lane >= 8;
    extract(packet_half(lanes, upper), lane % 8, len)
}

/// The compare value of an AtomicCompare at `lane`: the little-endian number of `len` lanes from there on.
///
/// `len` is the value's 1, 2, 4 or 8 bytes, and `lane` a multiple of it from 0 to 15.
/// Where lane `i` holds `i`, `compare_half(&lanes, 2, 2)` is `0x0302`.
#[inline]
pub fn compare_half(lanes: &[u8; 16], lane: usize, len: usize) -> u64
    requires part { IsLen len }
    requires aligned { lane % len ≡ 0 }
    requires inside { lane < 16 }
    ensures value { result ≡ number_in false (sent lanes.now lane len) }
    ensures below { result < 256 ^ len }
{
    lanes_value(lanes, lane, len)
}

/// The swap value of an AtomicCompare at `lane`: the little-endian number of the other half of its window.
///
/// The window is the `2 * len` lanes, aligned to that, that hold `lane`. `len` is the value's 1, 2, 4 or 8
/// bytes, and `lane` a multiple of it from 0 to 15.
/// Where lane `i` holds `i`, `swap_half(&lanes, 2, 2)` is `0x0100`.
#[inline]
pub fn swap_half(lanes: &[u8; 16], lane: usize, len: usize) -> u64
    requires part { IsLen len }
    requires aligned { lane % len ≡ 0 }
    requires inside { lane < 16 }
    ensures value { result ≡ number_in false (swap_value lanes.now lane len) }
    ensures below { result < 256 ^ len }
{
    let is_lower = lane % (2 * len) == 0;
    let other = if is_lower { lane + len } else { lane - len };
    lanes_value(lanes, other, len)
}

/// The lanes of an answer: the `len` bytes of `value` from `lane` on, least significant first, else 0.
#[inline]
pub(crate) fn answer_lanes(lane: usize, len: usize, value: u64) -> [u8; 16]
    requires part { IsLen len }
    requires aligned { lane % len ≡ 0 }
    requires inside { lane < 16 }
    requires fits { value < 256 ^ len }
    ensures { result ≡ in_lanes lane (little_bytes len value) }
{
    let word = value << (8 * (lane % 8));
    let mut lanes = [0; 16];
    if lane >= 8 {
        lanes[8..16].copy_from_slice(&word.to_le_bytes());
    } else {
        lanes[0..8].copy_from_slice(&word.to_le_bytes());
    }
    lanes
}

/// 255 in byte k where bit k of `enables` is 1, and 0 where it is 0.
#[inline]
pub(crate) fn enabled_mask(enables: u8) -> u64
    ensures { (k : ℕ) → k < 8 → slice_index (little_bytes 8 result) k ≡ 255 * bit_at enables k }
{
    let own_bits = (u64::from(enables) * EACH_BYTE) & OWN_BIT;
    let ones = ((own_bits + 0x7f * EACH_BYTE) >> 7) & EACH_BYTE;
    ones * 255
}

/// The bytes of `incoming` where the mask's byte is 255, and those of `word` where it is 0.
#[inline]
pub(crate) fn masked(word: u64, incoming: u64, mask: u64) -> u64
    ensures kept { (k : ℕ) → k < 8 → slice_index (little_bytes 8 mask) k ≡ 0 →
        slice_index (little_bytes 8 result) k ≡ slice_index (little_bytes 8 word) k }
    ensures written { (k : ℕ) → k < 8 → slice_index (little_bytes 8 mask) k ≡ 255 →
        slice_index (little_bytes 8 result) k ≡ slice_index (little_bytes 8 incoming) k }
{
    (word & !mask) | (incoming & mask)
}
