//! The other byte order of a number of a few bytes.

ghost use Rattle.std.specs.Prelude.{◌≡◌, ◌≤◌, ◌<◌, ◌^◌, true};
ghost use Rattle.chi_lanes.specs.Bytes.{number_in, little_bytes};

/// The number that the little-endian bytes of `value` spell when they are read big-endian, and the
/// other way round. `len` is a number of bytes, 1 to 8, and `value` is below 256 to that power.
///
/// The four bytes of `0x0102_0304` in the other order are those of `0x0403_0201`, so
/// `swap_order(0x0102_0304, 4) == 0x0403_0201`; in three bytes, `swap_order(0x01, 3) == 0x01_0000`.
#[inline]
pub fn swap_order(value: u64, len: usize) -> u64
    requires some { 1 ≤ len }
    requires most { len ≤ 8 }
    requires fits { value < 256 ^ len }
    ensures reversed { result ≡ number_in true (little_bytes len value) }
    ensures below { result < 256 ^ len }
{
    value.swap_bytes() >> (8 * (8 - len))
}
