//! The call on a memory whose words lie in the caller's array.

ghost use Rattle.std.specs.Prelude.{◌≡◌, ℕ, ◌<◌, ◌≤◌, Err, IfErr, IfOk, IsOkAnd, length};
ghost use Rattle.chi_fields.specs.Extent.{region_of};
ghost use Rattle.chi_lanes.specs.After.{after, answer};
ghost use Rattle.chi_lanes.specs.Memory.{Memory, IsMemory};
ghost use Rattle.chi_c.specs.Call.{AreWords, data_flag, decided, lanes_of_reply, call_request, result_number};

use crate::answer::write_answer;
use crate::call::{asked, call_request};
use chi_fields::Request;
use chi_lanes::{Reply, apply};

// The number of granules of so many words. A region has fewer than 65535, so that more words are as many as that.
#[inline]
fn granules_of(words: usize) -> u16
    ensures fitting { words < 65536 → result ≡ words }
    ensures within { result ≤ words }
    ensures refused { (base : ℕ) → region_of base result ≡ region_of base words }
{
    u16::try_from(words).unwrap_or(u16::MAX)
}

// The answer to a request whose region has these words, which are then those after it, or the number of a fault or
// refusal, and the words are as they were.
#[inline]
fn served(words: &mut [u64], base: u64, request: &Request) -> Result<Reply, u32>
    ensures served { IfOk result (λ reply. IsOkAnd (decided base (length words.old) request.now) (λ o.
        (m : Memory) → IsMemory m → AreWords m base words.old →
        AreWords (after o m) base words.new × (reply ≡ answer o m))) }
    ensures number { IfErr result (λ number. decided base (length words.old) request.now ≡ Err number) }
    ensures kept { IfErr result (λ _. words.new ≡ words.old) }
{
    let asked = asked(base, granules_of(words.len()), request)?;
    let granule = usize::from(asked.granule);
    let (after, reply) = apply(words[granule], &asked.access);
    words[granule] = after;
    Ok(reply)
}

/// Serves one request on the words of a region in the caller's memory: writes the operand's word and the answer, and
/// returns 0.
///
/// `words[i]` is the word of the granule at `base + 8 * i`, and the region has as many granules as there are words.
/// Byte `k` of a word is its bits `8k` to `8k + 7`. Data are big-endian where `endian` is not 0, bit `i` of `be` is
/// lane `i`, and `lanes` is the data packet, lane 0 first. `has_lanes` becomes 1 where the answer has data, which then
/// stand in `reply_lanes`; else it becomes 0, and the lanes become 0.
///
/// Where the result is not 0 nothing is written: it is the number that `chi_apply` answers.
///
/// ```
/// let result = chi_serve(&mut words, 0x1000, 0x30, 3, 0x1000, 0, 0xff, &lanes, &mut reply, &mut has);
/// ```
///
/// Source: Arm IHI 0050 Issue B, atomic transactions; the numbers are of the profile.
#[unsafe(no_mangle)]
pub extern "C" fn chi_serve(
    words: &mut [u64],
    base: u64,
    opcode: u8,
    size: u8,
    addr: u64,
    endian: u8,
    be: u16,
    lanes: &[u8; 16],
    reply_lanes: &mut [u8; 16],
    has_lanes: &mut u8,
) -> u32
    ensures number { let q = call_request opcode size addr endian be lanes.now in
        result ≡ result_number (decided base (length words.old) q) }
    ensures served { let q = call_request opcode size addr endian be lanes.now in
        IfOk (decided base (length words.old) q) (λ o. (m : Memory) → IsMemory m → AreWords m base words.old →
        AreWords (after o m) base words.new
        × (reply_lanes.new ≡ lanes_of_reply (answer o m)) × (has_lanes.new ≡ data_flag (answer o m))) }
    ensures kept { let q = call_request opcode size addr endian be lanes.now in
        IfErr (decided base (length words.old) q) (λ _. (words.new ≡ words.old)
        × (reply_lanes.new ≡ reply_lanes.old) × (has_lanes.new ≡ has_lanes.old)) }
{
    let request = call_request(opcode, size, addr, endian, be, lanes);
    match served(words, base, &request) {
        Ok(reply) => {
            write_answer(reply, reply_lanes, has_lanes);
            0
        }
        Err(number) => number,
    }
}
