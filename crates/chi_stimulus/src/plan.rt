//! Which requests of a script are refused, and why.

ghost use Rattle.std.specs.Prelude.{◌≡◌, ◌≤◌};
ghost use Rattle.chi_stimulus.specs.Plan.{numbered_refusal, refusal_at, refusal_of};

use chi_fields::laws::region_is_lawful;
use chi_fields::{Refusal, Region, Request, decode};
use rand::RngExt;
use rand_core::Rng;

/// The refusal of a number from 0 to 5.
fn numbered_refusal(number: u64) -> Refusal
    ensures { result ≡ numbered_refusal number }
{
    match number {
        0 => Refusal::UnknownOpcode,
        1 => Refusal::ReservedSize,
        2 => Refusal::SizeOutOfProfile,
        3 => Refusal::Misaligned,
        4 => Refusal::OutOfRegion,
        _ => Refusal::BadByteEnable,
    }
}

/// Why the request at a place, counted from 0, is to be refused, if it is, where so many of a hundred are.
pub(crate) fn refusal_at(percent: u8, place: u16) -> Option<Refusal>
    ensures { result ≡ refusal_at percent place }
{
    let before = u64::from(place) * u64::from(percent) / 100;
    let after = (u64::from(place) + 1) * u64::from(percent) / 100;
    if before < after {
        Some(numbered_refusal(before % 6))
    } else {
        None
    }
}

/// A request with what it is to be refused for, as far as its other fields allow.
pub(crate) fn spoilt<R: Rng>(
    rng: &mut R,
    request: Request,
    region: &Region,
    refusal: Refusal,
) -> Request
    requires { request.size ≤ 4 }
    ensures src { result.src ≡ request.src }
    ensures size { result.size ≤ 7 }
{
    match refusal {
        Refusal::UnknownOpcode => Request {
            opcode: 0x3a + rng.random_range(0u8..6),
            ..request
        },
        Refusal::ReservedSize => Request { size: 7, ..request },
        Refusal::SizeOutOfProfile => Request {
            size: rng.random_range(4u8..7),
            ..request
        },
        Refusal::Misaligned => Request {
            addr: request.addr ^ rng.random_range(1u64..8),
            ..request
        },
        Refusal::OutOfRegion => {
            let beyond = 8 * u64::from(region.granules());
            Request {
                addr: request.addr.wrapping_add(beyond),
                ..request
            }
        }
        Refusal::BadByteEnable => Request {
            be: request.be ^ 1 << rng.random_range(0u32..16),
            ..request
        },
    }
}

/// A request that a home of this region decides so, with as little as it takes.
#[tactic(auto, unfolding(chi_fields::specs::Refusal::decision_as, chi_fields::specs::Access::enables_within))]
fn plain_request(region: &Region, refusal: Option<Refusal>, src: u8, txn: u8) -> Request
    ensures decided { refusal_of region.now result ≡ refusal }
    ensures src { result.src ≡ src }
    ensures size { result.size ≤ 7 }
{
    region_is_lawful(region);
    let read = Request {
        src,
        txn,
        opcode: 0x04,
        size: 3,
        addr: region.base(),
        endian: false,
        be: 0,
        lanes: [0; 16],
    };
    match refusal {
        None => read,
        Some(Refusal::UnknownOpcode) => Request { opcode: 0, ..read },
        Some(Refusal::ReservedSize) => Request { size: 7, ..read },
        Some(Refusal::SizeOutOfProfile) => Request { size: 4, ..read },
        Some(Refusal::Misaligned) => Request {
            addr: region.base() + 1,
            ..read
        },
        Some(Refusal::OutOfRegion) => Request {
            addr: region.base() + 8 * u64::from(region.granules()),
            ..read
        },
        Some(Refusal::BadByteEnable) => Request {
            opcode: 0x1c,
            size: 0,
            be: 0x8000,
            ..read
        },
    }
}

/// The request where a home of the region decides it so, and else a plain one that it does.
pub(crate) fn decided(request: Request, region: &Region, refusal: Option<Refusal>) -> Request
    requires { request.size ≤ 7 }
    ensures decided { refusal_of region.now result ≡ refusal }
    ensures src { result.src ≡ request.src }
    ensures size { result.size ≤ 7 }
{
    if decode(&request, region).err() == refusal {
        request
    } else {
        plain_request(region, refusal, request.src, request.txn)
    }
}
