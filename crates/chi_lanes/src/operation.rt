//! An access on the word of its granule.

ghost use Rattle.std.specs.Prelude.{◌≡◌, ℕ, IsTrue};
ghost use Rattle.chi_fields.specs.Extent.{Extent, IsRegion, granule_of, lies_in};
ghost use Rattle.chi_lanes.specs.After.{after, answer};
ghost use Rattle.chi_lanes.specs.Memory.{Memory, IsMemory, granule_start, word, word_at};

use crate::combination::combined;
use crate::operand::{compared, old_value, sent_of, stored, written};
use crate::packet::answer_lanes;
use crate::reply::Reply;
use chi_fields::{Access, Kind};

// The access, over the granule of its address.
#[inline(always)]
fn applied(before: u64, access: &Access) -> (u64, Reply)
    ensures changed { (m : Memory) → IsMemory m → before ≡ word_at m (granule_start access.now.addr) →
        result.0 ≡ word_at (after access.now m) (granule_start access.now.addr) }
    ensures answered { (m : Memory) → IsMemory m → before ≡ word_at m (granule_start access.now.addr) →
        result.1 ≡ answer access.now m }
{
    let old = old_value(before, access);
    let returned = Reply::CompData(answer_lanes(access.lane(), access.len(), old));
    match access.kind() {
        Kind::Read => (before, returned),
        Kind::Write => (written(before, access), Reply::Comp),
        Kind::Store(op) => {
            let new = combined(op, access.endian(), access.len(), old, sent_of(access));
            (stored(before, access, new), Reply::Comp)
        }
        Kind::Load(op) => {
            let new = combined(op, access.endian(), access.len(), old, sent_of(access));
            (stored(before, access, new), returned)
        }
        Kind::Swap => (stored(before, access, sent_of(access)), returned),
        Kind::Compare => (compared(before, access), returned),
    }
}

/// The word of an access's granule after it, and the reply.
///
/// Byte `k` of a word is its bits `8k` to `8k + 7`, and stands for the granule's address plus `k`. The word
/// and the reply are those of the byte definition, for every region that the access fits and every memory
/// whose granule has this word.
///
/// ```
/// let (after, reply) = apply(word, &access);
/// ```
///
/// Source: Arm IHI 0050 Issue B, atomic operations, operand placement, byte enables and Endian.
#[inline(always)]
pub fn apply(before: u64, access: &Access) -> (u64, Reply)
    ensures changed { (region : Extent) (m : Memory) → IsRegion region → IsMemory m →
        IsTrue (lies_in access.now.addr access.now.len region) →
        before ≡ word m region (granule_of access.now.addr region) →
        result.0 ≡ word (after access.now m) region (granule_of access.now.addr region) }
    ensures answered { (region : Extent) (m : Memory) → IsRegion region → IsMemory m →
        IsTrue (lies_in access.now.addr access.now.len region) →
        before ≡ word m region (granule_of access.now.addr region) →
        result.1 ≡ answer access.now m }
{
    applied(before, access)
}
