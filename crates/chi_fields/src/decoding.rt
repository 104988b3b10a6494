//! From a request to the access that it describes, or to its refusal.

ghost use Rattle.std.specs.Prelude.{◌≡◌, ℕ, ◌+◌, ◌*◌, ◌%◌, ◌≤◌, ◌<◌, true, false, IfSome, IfNone, IfOk, IsTrue};
ghost use Rattle.chi_fields.specs.Extent.{lies_in};
ghost use Rattle.chi_fields.specs.Access.{IsLawful, IsLen, enables_fit};
ghost use Rattle.chi_fields.specs.Refusal.{decision, len_of, is_in_profile};

use crate::access::Access;
use crate::kind::Kind;
use crate::opcode::kind_of;
use crate::refusal::Refusal;
use crate::region::Region;
use crate::request::Request;

// The operand's length in bytes, where the profile has this size.
fn len_of(kind: Kind, size: u8) -> Option<u8>
    ensures some { IfSome result (λ len. (is_in_profile kind size ≡ true) × (len ≡ len_of kind size)) }
    ensures none { IfNone result (is_in_profile kind size ≡ false) }
    ensures part { IfSome result (λ len. IsLen len) }
{
    let power = match kind {
        Kind::Compare => size.checked_sub(1)?,
        _ => size,
    };
    match power {
        0 => Some(1),
        1 => Some(2),
        2 => Some(4),
        3 => Some(8),
        _ => None,
    }
}

// Whether the byte enables are as the window asks.
#[tactic(auto, using(crate::proofs::EnableBits::exactly_operand, crate::proofs::EnableBits::exactly_window, crate::proofs::EnableBits::within_operand))]
#[inline(always)]
fn enables_fit(kind: Kind, len: u8, lane: u8, enables: u16) -> bool
    requires part { IsLen len }
    requires aligned { lane % len ≡ 0 }
    requires within { lane < 16 }
    ensures { result ≡ enables_fit kind len lane enables }
{
    let enables = u32::from(enables);
    match kind {
        Kind::Read => true,
        Kind::Write => enables % (1 << lane) == 0 && enables < 1 << (lane + len),
        Kind::Compare => enables == ((1 << (2 * len)) - 1) << (lane - lane % (2 * len)),
        _ => enables == ((1 << len) - 1) << lane,
    }
}

/// The access that the request describes, or the first refusal that it meets.
///
/// Which requests are refused, and in which order, is of the profile where the standard leaves it open:
/// an unknown opcode, a reserved size, a size out of profile, an address that is no multiple of the operand's
/// length, an operand outside the region, byte enables that do not fit the window.
///
/// ```
/// let access = decode(&request, &region)?;
/// ```
///
/// Source: Arm IHI 0050 Issue B, sizes, operand placement and byte enables.
#[tactic(auto, unfolding(crate::specs::Refusal::decision_as))]
#[inline(always)]
pub fn decode(request: &Request, region: &Region) -> Result<Access, Refusal>
    ensures decided { result ≡ decision request.now region.now }
    ensures fits { IfOk result (λ a. IsTrue (lies_in a.addr a.len region.now)) }
    ensures lawful { IfOk result (λ a. IsLawful a) }
{
    let Some(kind) = kind_of(request.opcode) else {
        return Err(Refusal::UnknownOpcode);
    };
    if request.size >= 7 {
        return Err(Refusal::ReservedSize);
    }
    let Some(len) = len_of(kind, request.size) else {
        return Err(Refusal::SizeOutOfProfile);
    };
    if request.addr % u64::from(len) != 0 {
        return Err(Refusal::Misaligned);
    }
    if !region.has(request.addr, len) {
        return Err(Refusal::OutOfRegion);
    }
    let lane = (request.addr % 16) as u8;
    if !enables_fit(kind, len, lane, request.be) {
        return Err(Refusal::BadByteEnable);
    }
    Ok(Access::of(request, kind, len))
}
