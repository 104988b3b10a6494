//! Why a script is refused.

ghost use Rattle.std.specs.Prelude.{◌≡◌};
ghost use Rattle.chi_script.specs.Faults.{as_fault};

use crate::member::Member;
use chi_fields::{RegionFault, region_fault_name};
use chi_json::MemberFault;
use std::alloc::AllocError;
use thiserror::Error;

/// Why a script is refused: the first fault that its walk meets, or `Memory` where a growth is refused before.
///
/// - `NotJson`: the text is not one JSON text in UTF-8, or nests more than 127 deep.
/// - `NotObject`: the value is not an object.
/// - `Missing`, `BadMember`: a member is not there, or not as stated.
/// - `TooManyRequests`: there are more than 4,096 requests.
/// - `RegionRefused`: `Region::new` refuses the base and the number of granules.
///
/// ```
/// let fault = ScriptFault::Missing(Member::Opcode); // script member op is missing
/// ```
#[derive(Clone, Copy, Debug, PartialEq, Eq, Error)]
pub enum ScriptFault {
    #[error("script is not JSON")]
    NotJson,
    #[error("script is not an object")]
    NotObject,
    #[error("script member {} is missing", .0.name())]
    Missing(Member),
    #[error("script member {} is not as stated", .0.name())]
    BadMember(Member),
    #[error("script has over {MOST_REQUESTS} requests")]
    TooManyRequests,
    #[error("script region is refused: {}", region_fault_name(*.0))]
    RegionRefused(RegionFault),
    #[error("no memory")]
    Memory,
}

impl From<AllocError> for ScriptFault {
    ghost use Rattle.chi_script.specs.declared.fault.ScriptFault.TheVariants.{Memory};

    ghost from_gives = { λ fault result. result ≡ Memory };

    fn from(_fault: AllocError) -> ScriptFault {
        ScriptFault::Memory
    }
}

impl From<MemberFault<Member>> for ScriptFault {
    ghost from_gives = { λ fault result. result ≡ as_fault fault };

    fn from(fault: MemberFault<Member>) -> ScriptFault {
        match fault {
            MemberFault::Missing(member) => ScriptFault::Missing(member),
            MemberFault::BadMember(member) => ScriptFault::BadMember(member),
            MemberFault::Memory => ScriptFault::Memory,
        }
    }
}

/// The greatest number of requests in a script.
pub const MOST_REQUESTS: usize = 4096;
