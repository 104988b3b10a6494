//! The members of an object: their names, their faults, and those that are whole numbers.

ghost use Rattle.std.specs.Prelude.{◌≡◌, ◌≤◌, IfOk};
ghost use Rattle.std.specs.Option.{ok_or};
ghost use Rattle.std.specs.Result.{result_map_both};
ghost use Rattle.serde_json.specs.Find.{get};
ghost use Rattle.chi_json.specs.Datum.{datum_data};
ghost use Rattle.chi_json.specs.Members.{number_of};

use crate::datum::{Datum, JsonObject};
use thiserror::Error;

/// A member that objects of some kind have.
pub trait Named: Copy {
    ghost use Rattle.std.specs.Prelude.{◌≡◌, ℕ, List};

    /// Its name.
    ghost name_of: { Self → List ℕ };

    /// The member's name in the object.
    ///
    /// ```
    /// let value = object.get(member.name())?;
    /// ```
    fn name(self) -> &'static str
        ensures { result.now ≡ name_of self };

    /// What the member has to be, after "is not" in the text of a fault.
    ///
    /// ```
    /// let text = Member::Size.wanted(); // a whole number up to 7
    /// ```
    fn wanted(self) -> &'static str {
        "as stated"
    }
}

/// Why a member of an object is refused.
///
/// - `Missing`: the object has no such member.
/// - `BadMember`: the member is not as stated.
/// - `Memory`: no memory for what the member states.
///
/// ```
/// let fault = number(&object, Member::Size, 7).err(); // Some(MemberFault::Missing(Member::Size))
/// ```
#[derive(Clone, Copy, Debug, PartialEq, Eq, Error)]
#[error_bound(M: Named)]
pub enum MemberFault<M> {
    #[error("member {} is missing", .0.name())]
    Missing(M),
    #[error("member {} is not {}", .0.name(), .0.wanted())]
    BadMember(M),
    #[error("no memory")]
    Memory,
}

/// The value of a member of an object. `Missing` is answered where the object has no such member.
///
/// ```
/// let list = stated(&object, Member::Requests)?.as_array();
/// ```
pub fn stated<O: JsonObject, M: Named>(object: &O, member: M) -> Result<Datum<'_>, MemberFault<M>>
    ensures { result_map_both datum_data (λ fault. fault) result ≡ ok_or (get (M.name_of member) (O.data_of object.now)) (MemberFault.Missing member) }
{
    object
        .get(member.name())
        .ok_or(MemberFault::Missing(member))
}

/// The member of an object that is a whole number from 0 to `top`.
///
/// `Missing` is answered where the object has no such member, and `BadMember` where it has another value: also a
/// number with a fraction or an exponent.
///
/// ```
/// let start = number(&object, Member::Start, u64::MAX)?;
/// ```
#[tactic(auto, unfolding(crate::specs::Members::number_of))]
pub fn number<O: JsonObject, M: Named>(
    object: &O,
    member: M,
    top: u64,
) -> Result<u64, MemberFault<M>>
    ensures value { result ≡ number_of M.name_of member top (O.data_of object.now) }
    ensures small { IfOk result (λ n. n ≤ top) }
{
    match stated(object, member)?.as_u64() {
        Some(n) if n <= top => Ok(n),
        _ => Err(MemberFault::BadMember(member)),
    }
}
