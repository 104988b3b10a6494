//! Calls on one request: what it means, and what it makes of the word of its granule.

ghost use Rattle.std.specs.Prelude.{◌≡◌, ℕ, Err, IfErr, IfOk, IsOkAnd};
ghost use Rattle.chi_fields.specs.Extent.{granule_of};
ghost use Rattle.chi_lanes.specs.After.{after, answer};
ghost use Rattle.chi_lanes.specs.Memory.{Memory, IsMemory, granule_start, word_at};
ghost use Rattle.chi_c.specs.Call.{bare_request, data_flag, decided, lanes_of_reply, region, call_request, result_number};
ghost use Rattle.chi_c.specs.CallNumbers.{kind_number, op_number};

use crate::answer::write_answer;
use crate::call::{asked, bare_request, call_request};
use crate::numbers::{kind_number, op_number};
use chi_fields::Request;
use chi_lanes::{Reply, apply};

/// Decodes one request: writes what it asks for, and returns 0.
///
/// `kind` becomes 0 to 5 for ReadNoSnp, WriteNoSnpPtl, AtomicStore, AtomicLoad, AtomicSwap and AtomicCompare, `op`
/// the opcode's low three bits for AtomicStore and AtomicLoad (0 to 7) and 8 for the others, `len` the operand's
/// length of 1, 2, 4 or 8 bytes, and `granule` the number of its granule in the region, from 0.
///
/// Where the result is not 0 nothing is written: it is the number that `chi_apply` answers.
///
/// ```
/// let result = chi_decode(0x1000, 8, 0x30, 3, 0x1000, 0xff, &mut kind, &mut op, &mut len, &mut granule);
/// ```
///
/// Source: Arm IHI 0050 Issue B, request fields; the numbers are of the profile.
#[unsafe(no_mangle)]
pub extern "C" fn chi_decode(
    base: u64,
    granules: u16,
    opcode: u8,
    size: u8,
    addr: u64,
    be: u16,
    kind: &mut u8,
    op: &mut u8,
    len: &mut u8,
    granule: &mut u16,
) -> u32
    ensures number { let q = bare_request opcode size addr be in
        result ≡ result_number (decided base granules q) }
    ensures read { let q = bare_request opcode size addr be in
        IfOk (decided base granules q) (λ o. (kind.new ≡ kind_number o.kind) × (op.new ≡ op_number o.kind)
        × (len.new ≡ o.len) × (granule.new ≡ granule_of o.addr (region base granules))) }
    ensures kept { let q = bare_request opcode size addr be in
        IfErr (decided base granules q) (λ _. (kind.new ≡ kind.old) × (op.new ≡ op.old)
        × (len.new ≡ len.old) × (granule.new ≡ granule.old)) }
{
    let request = bare_request(opcode, size, addr, be);
    match asked(base, granules, &request) {
        Ok(asked) => {
            *kind = kind_number(asked.access.kind());
            *op = op_number(asked.access.kind());
            *len = asked.access.len() as u8;
            *granule = asked.granule;
            0
        }
        Err(number) => number,
    }
}

// The word of the request's granule after it, and the answer, or the number of a fault or refusal.
#[inline]
fn applied(base: u64, granules: u16, request: &Request, word: u64) -> Result<(u64, Reply), u32>
    ensures applied { IfOk result (λ made. IsOkAnd (decided base granules request.now) (λ o.
        (m : Memory) → IsMemory m → word ≡ word_at m (granule_start o.addr) →
        (made.0 ≡ word_at (after o m) (granule_start o.addr)) × (made.1 ≡ answer o m))) }
    ensures number { IfErr result (λ number. decided base granules request.now ≡ Err number) }
{
    let asked = asked(base, granules, request)?;
    Ok(apply(word, &asked.access))
}

/// Executes one request on the word of its granule: writes the word after it and the answer, and returns 0.
///
/// Byte `k` of a word is its bits `8k` to `8k + 7`, and stands for the granule's address plus `k`. The region
/// has `granules` granules of eight bytes from `base` on. Data are big-endian where `endian` is not 0, bit `i`
/// of `be` is lane `i`, and `lanes` is the data packet, lane 0 first. `has_lanes` becomes 1 where the answer has
/// data, which then stand in `reply_lanes`; else it becomes 0, and the lanes become 0.
///
/// Where the result is not 0 nothing is written: 1 to 6 is the first refusal that the request meets, in the
/// order of `Refusal`, and 17 to 19 a fault of the region, in the order of `RegionFault`.
///
/// ```
/// let result = chi_apply(0x1000, 8, 0x30, 3, 0x1000, 0, 0xff, &lanes, word, &mut new_word, &mut reply, &mut has);
/// ```
///
/// Source: Arm IHI 0050 Issue B, atomic transactions; the numbers are of the profile.
#[unsafe(no_mangle)]
pub extern "C" fn chi_apply(
    base: u64,
    granules: u16,
    opcode: u8,
    size: u8,
    addr: u64,
    endian: u8,
    be: u16,
    lanes: &[u8; 16],
    word: u64,
    new_word: &mut u64,
    reply_lanes: &mut [u8; 16],
    has_lanes: &mut u8,
) -> u32
    ensures number { let q = call_request opcode size addr endian be lanes.now in
        result ≡ result_number (decided base granules q) }
    ensures applied { let q = call_request opcode size addr endian be lanes.now in
        IfOk (decided base granules q) (λ o. (m : Memory) → IsMemory m → word ≡ word_at m (granule_start o.addr) →
        (new_word.new ≡ word_at (after o m) (granule_start o.addr))
        × (reply_lanes.new ≡ lanes_of_reply (answer o m)) × (has_lanes.new ≡ data_flag (answer o m))) }
    ensures kept { let q = call_request opcode size addr endian be lanes.now in
        IfErr (decided base granules q) (λ _. (new_word.new ≡ new_word.old)
        × (reply_lanes.new ≡ reply_lanes.old) × (has_lanes.new ≡ has_lanes.old)) }
{
    let request = call_request(opcode, size, addr, endian, be, lanes);
    match applied(base, granules, &request, word) {
        Ok((after, reply)) => {
            *new_word = after;
            write_answer(reply, reply_lanes, has_lanes);
            0
        }
        Err(number) => number,
    }
}
