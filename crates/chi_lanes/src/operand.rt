//! The operand of an access: in the word of its granule, and in the data packet.

ghost use Rattle.std.specs.Prelude.{◌≡◌, ℕ, ◌+◌, ◌^◌, ◌<◌, ◌≤◌};
ghost use Rattle.chi_fields.specs.Access.{lane_of};
ghost use Rattle.chi_fields.specs.declared.kind.Kind.{Kind};
ghost use Rattle.chi_lanes.specs.After.{after_compare, old};
ghost use Rattle.chi_lanes.specs.Bytes.{little_bytes};
ghost use Rattle.chi_lanes.specs.Memory.{Memory, IsMemory, granule_start, with_bytes, with_enabled, word_at};
ghost use Rattle.chi_lanes.specs.Packet.{sent, swap_value};

use crate::kernels::{extract, insert};
use crate::packet::{enabled_mask, lanes_value, masked, packet_half, swap_half};
use chi_fields::Access;

// The number of the operand's old bytes.
#[inline]
pub(crate) fn old_value(before: u64, access: &Access) -> u64
    ensures below { result < 256 ^ access.now.len }
    ensures bytes { (m : Memory) → IsMemory m → before ≡ word_at m (granule_start access.now.addr) →
        little_bytes access.now.len result ≡ old access.now m }
{
    extract(before, (access.addr() % 8) as usize, access.len())
}

// The number of the bytes that are sent for the operand.
#[inline]
pub(crate) fn sent_of(access: &Access) -> u64
    ensures below { result < 256 ^ access.now.len }
    ensures bytes { little_bytes access.now.len result ≡ sent access.now.lanes (lane_of access.now.addr) access.now.len }
{
    lanes_value(&access.lanes(), access.lane(), access.len())
}

// The number of the swap value of an AtomicCompare.
#[inline]
pub(crate) fn swap_of(access: &Access) -> u64
    ensures below { result < 256 ^ access.now.len }
    ensures bytes { little_bytes access.now.len result ≡ swap_value access.now.lanes (lane_of access.now.addr) access.now.len }
{
    swap_half(&access.lanes(), access.lane(), access.len())
}

// The word with this number in the operand.
#[inline]
pub(crate) fn stored(before: u64, access: &Access, value: u64) -> u64
    requires fits { value < 256 ^ access.now.len }
    ensures { (m : Memory) → IsMemory m → before ≡ word_at m (granule_start access.now.addr) →
        result ≡ word_at (with_bytes m access.now.addr (little_bytes access.now.len value)) (granule_start access.now.addr) }
{
    insert(before, (access.addr() % 8) as usize, access.len(), value)
}

// The word with the enabled bytes of a write.
#[inline]
pub(crate) fn written(before: u64, access: &Access) -> u64
    requires { access.now.kind ≡ Kind.Write }
    ensures { (m : Memory) → IsMemory m → before ≡ word_at m (granule_start access.now.addr) →
        result ≡ word_at (with_enabled access.now.lanes access.now.enables m access.now.addr access.now.len) (granule_start access.now.addr) }
{
    let upper = access.lane() >= 8;
    let first: u32 = if upper { 8 } else { 0 };
    let enables = ((access.enables() >> first) & 0xff) as u8;
    masked(
        before,
        packet_half(&access.lanes(), upper),
        enabled_mask(enables),
    )
}

// The word with the swap value of an AtomicCompare where its compare value is in the operand.
#[inline]
pub(crate) fn compared(before: u64, access: &Access) -> u64
    ensures { (m : Memory) → IsMemory m → before ≡ word_at m (granule_start access.now.addr) →
        result ≡ word_at (after_compare access.now m) (granule_start access.now.addr) }
{
    if old_value(before, access) == sent_of(access) {
        stored(before, access, swap_of(access))
    } else {
        before
    }
}
