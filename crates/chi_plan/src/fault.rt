//! Why a plan is refused.

ghost use Rattle.std.specs.Prelude.{◌≡◌};

use crate::member::Member;
use chi_json::ObjectFault;
use std::alloc::AllocError;
use thiserror::Error;

/// Why a plan is refused: the first fault that its reading meets, or `Memory` where a growth is refused before.
///
/// - `NotJson`: the text is not one JSON text in UTF-8, or nests more than 127 deep.
/// - `NotArray`: the value is not an array.
/// - `InRule`: the rule with this number, counted from 1, is none.
/// - `NoBin`: no bin fits the pattern of the rule with this number.
///
/// ```
/// let fault = PlanFault::NoBin { number: 2 }; // rule 2 has a pattern that no bin fits
/// ```
#[derive(Clone, Copy, Debug, PartialEq, Eq, Error)]
pub enum PlanFault {
    #[error("plan is not JSON")]
    NotJson,
    #[error("plan is not an array")]
    NotArray,
    #[error("rule {number} {fault}")]
    InRule {
        number: usize,
        fault: ObjectFault<Member>,
    },
    #[error("rule {number} has a pattern that no bin fits")]
    NoBin {
        number: usize,
    },
    #[error("no memory")]
    Memory,
}

impl From<AllocError> for PlanFault {
    ghost use Rattle.chi_plan.specs.declared.fault.PlanFault.TheVariants.{Memory};

    ghost from_gives = { λ fault result. result ≡ Memory };

    fn from(_fault: AllocError) -> PlanFault {
        PlanFault::Memory
    }
}
