//! Runs of lanes of a granule's word, by shifts and masks. Lane 0 is its least significant byte.

ghost use Rattle.std.specs.Prelude.{◌≡◌, ◌+◌, ◌-◌, ◌*◌, ◌^◌, ◌<◌, ◌≤◌, ◌++◌, false, replicate, take, drop, slice_range};
ghost use Rattle.chi_lanes.specs.Bytes.{little_bytes, number_in};

/// The word whose `len` bytes from `lane` on are 255 and whose other bytes are 0.
///
/// `len` is 1 to 8 bytes, and the lanes lie within 0 to 7. `lane_mask(1, 2)` is `0x00ff_ff00`.
#[inline]
pub fn lane_mask(lane: usize, len: usize) -> u64
    requires room { lane + len ≤ 8 }
    requires some { 1 ≤ len }
    ensures number { result ≡ (256 ^ len - 1) * 256 ^ lane }
    ensures lanes { little_bytes 8 result
        ≡ replicate lane 0 ++ (replicate len 255 ++ replicate (8 - lane - len) 0) }
{
    (u64::MAX >> (64 - 8 * len)) << (8 * lane)
}

/// The little-endian number of a word's `len` bytes from `lane` on.
///
/// `len` is 1 to 8 bytes, and the lanes lie within 0 to 7.
/// `extract(0x8877_6655_4433_2211, 2, 2)` is `0x4433`.
#[inline]
pub fn extract(word: u64, lane: usize, len: usize) -> u64
    requires room { lane + len ≤ 8 }
    requires some { 1 ≤ len }
    ensures value { result ≡ number_in false (slice_range (little_bytes 8 word) lane (lane + len)) }
    ensures below { result < 256 ^ len }
{
    (word >> (8 * lane)) & (u64::MAX >> (64 - 8 * len))
}

/// The word with `value` in its `len` bytes from `lane` on, and every other byte kept.
///
/// `len` is 1 to 8 bytes, the lanes lie within 0 to 7, and `value` has `len` bytes.
/// `insert(0x8877_6655_4433_2211, 2, 2, 0xabcd)` is `0x8877_6655_abcd_2211`.
#[inline]
pub fn insert(word: u64, lane: usize, len: usize, value: u64) -> u64
    requires room { lane + len ≤ 8 }
    requires some { 1 ≤ len }
    requires fits { value < 256 ^ len }
    ensures { little_bytes 8 result
        ≡ take lane (little_bytes 8 word) ++ (little_bytes len value ++ drop (lane + len) (little_bytes 8 word)) }
{
    (word & !lane_mask(lane, len)) | (value << (8 * lane))
}
