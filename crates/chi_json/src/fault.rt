//! Why an object is refused, whatever it is of.

ghost use Rattle.std.specs.Prelude.{◌≡◌};
ghost use Rattle.serde_json.specs.Find.{get};
ghost use Rattle.serde_json.specs.View.{view};
ghost use Rattle.chi_json.specs.Faults.{bad_member, of_member};

use crate::member::{MemberFault, Named};
use crate::shown::{ShownText, ShownValue};
use serde_json::Value;
use std::alloc::AllocError;
use thiserror::Error;

/// Why an object is refused: the first fault that its reading meets, or `Memory` where a growth is refused before. The text does
/// not say which object it is.
///
/// - `NotJson`: the text is not one JSON text in UTF-8, or nests more than 127 deep.
/// - `NotObject`: the value is not an object.
/// - `Missing`, `BadMember`: a member is not there, or has this value, which is not as stated.
/// - `UnknownMember`: there is a member that such an object does not have, and whose name does not begin with `x-`.
///
/// ```
/// let fault = ObjectFault::Missing(Member::Time); // member time is missing
/// ```
#[derive(Clone, Copy, Debug, PartialEq, Eq, Error)]
#[error_bound(M: Named)]
pub enum ObjectFault<M> {
    #[error("is not JSON")]
    NotJson,
    #[error("is not an object")]
    NotObject,
    #[error("member {} is missing", .0.name())]
    Missing(M),
    #[error("member {} is {value}, and not {}", .member.name(), .member.wanted())]
    BadMember { member: M, value: ShownValue },
    #[error("has an unknown member {0}")]
    UnknownMember(ShownText),
    #[error("no memory")]
    Memory,
}

/// The fault of an object of which a member is not as stated.
fn bad_member<M: Named>(object: &Value, member: M) -> ObjectFault<M>
    ensures { result ≡ bad_member member (get (M.name_of member) (view object.now)) }
{
    match object.get(member.name()) {
        Some(value) => ObjectFault::BadMember {
            member,
            value: ShownValue::of(value),
        },
        None => ObjectFault::Missing(member),
    }
}

impl<M: Named> ObjectFault<M> {
    /// The fault of an object of which a member has one.
    ///
    /// ```
    /// let fault = ObjectFault::of_member(&object, MemberFault::Missing(Member::Time)); // member time is missing
    /// ```
    pub fn of_member(object: &Value, fault: MemberFault<M>) -> ObjectFault<M>
        ensures { result ≡ of_member M.name_of (view object.now) fault }
    {
        match fault {
            MemberFault::Missing(member) => ObjectFault::Missing(member),
            MemberFault::BadMember(member) => bad_member(object, member),
            MemberFault::Memory => ObjectFault::Memory,
        }
    }
}

impl<M: Named> From<AllocError> for ObjectFault<M> {
    ghost use Rattle.chi_json.specs.declared.fault.ObjectFault.TheVariants.{Memory};

    ghost from_gives = { λ fault result. result ≡ Memory };

    fn from(_fault: AllocError) -> ObjectFault<M> {
        ObjectFault::Memory
    }
}
