//! What a call asks for: its request, its region, and what is decided of them.

ghost use Rattle.std.specs.Prelude.{◌≡◌, ◌<◌, IfErr, IfOk, Ok, Err};
ghost use Rattle.chi_fields.specs.Extent.{granule_of};
ghost use Rattle.chi_c.specs.Call.{IsAccepted, bare_request, decided, region, call_request};

use crate::numbers::{fault_number, refusal_number};
use chi_fields::{Access, Region, Request, decode};

// The request of a call, big-endian where `endian` is not 0.
#[inline]
pub(crate) fn call_request(
    opcode: u8,
    size: u8,
    addr: u64,
    endian: u8,
    be: u16,
    lanes: &[u8; 16],
) -> Request
    ensures { result ≡ call_request opcode size addr endian be lanes.now }
{
    Request {
        src: 0,
        txn: 0,
        opcode,
        size,
        addr,
        endian: endian != 0,
        be,
        lanes: *lanes,
    }
}

// The request of a call that only decodes.
#[tactic(auto, unfolding(crate::specs::Call::bare_request))]
#[inline]
pub(crate) fn bare_request(opcode: u8, size: u8, addr: u64, be: u16) -> Request
    ensures { result ≡ bare_request opcode size addr be }
{
    call_request(opcode, size, addr, 0, be, &[0; 16])
}

// An accepted access, and the number of its granule in the region.
#[derive(Clone, Copy)]
pub(crate) struct Accepted {
    pub(crate) access: Access,
    pub(crate) granule: u16,
}

// What a call asks for, or the number of the region's fault, or of the first refusal.
#[inline(always)]
pub(crate) fn asked(base: u64, granules: u16, request: &Request) -> Result<Accepted, u32>
    ensures access { IfOk result (λ asked. decided base granules request.now ≡ Ok asked.access) }
    ensures accepted { IfOk result (λ asked. IsAccepted (region base granules) asked.access) }
    ensures granule { IfOk result (λ asked. asked.granule ≡ granule_of asked.access.addr (region base granules)) }
    ensures within { IfOk result (λ asked. asked.granule < granules) }
    ensures number { IfErr result (λ number. decided base granules request.now ≡ Err number) }
{
    let region = match Region::new(base, granules) {
        Ok(region) => region,
        Err(fault) => return Err(fault_number(fault)),
    };
    match decode(request, &region) {
        Ok(access) => {
            let granule = access.granule(&region) as u16;
            Ok(Accepted { access, granule })
        }
        Err(refusal) => Err(refusal_number(refusal)),
    }
}
