//! Members of a flit's object that are texts of hex digits.

ghost use Rattle.std.specs.Prelude.{◌≡◌, ◌≤◌, IfSome, IfOk, is_some};
ghost use Rattle.std.specs.Result.{result_map_both};
ghost use Rattle.serde_json.specs.Find.{get};
ghost use Rattle.chi_flit_text.specs.Member.{member_name};
ghost use Rattle.chi_flit_text.specs.Stated.{digits_of, hex_number, hex_or_zero, number_text, wide_text, within};

use crate::digits::{bits_of, is_text};
use crate::member::FlitMember;
use chi_json::{JsonObject, MemberFault, stated};

/// A number that is at most `top`, or whose value is not known.
fn within(top: u64, number: Option<u64>) -> Option<Option<u64>>
    ensures value { result ≡ within top number }
    ensures small { IfSome result (λ number. IfSome number (λ n. n ≤ top)) }
{
    match number {
        Some(n) if n > top => None,
        other => Some(other),
    }
}

/// The number of a text of 1 to 16 digits, at most `top`. `None` is answered where the text is none, and `None` in it where a
/// digit is not known.
#[tactic(auto, unfolding(crate::specs::Stated::number_text))]
fn number_text(top: u64, text: &[u8]) -> Option<Option<u64>>
    ensures value { result ≡ number_text top text.now }
    ensures small { IfSome result (λ number. IfSome number (λ n. n ≤ top)) }
{
    if text.is_empty() || text.len() > 16 || !is_text(text) {
        return None;
    }
    within(top, bits_of(text).value())
}

/// The number that a member states, at most `top`, and `None` where a digit of it is not known.
#[tactic(auto, unfolding(crate::specs::Stated::hex_number))]
pub(crate) fn hex_number<O: JsonObject>(
    object: &O,
    member: FlitMember,
    top: u64,
) -> Result<Option<u64>, MemberFault<FlitMember>>
    ensures value { result ≡ hex_number member top (O.data_of object.now) }
    ensures small { IfOk result (λ number. IfSome number (λ n. n ≤ top)) }
{
    let value = stated(object, member)?;
    let Some(text) = value.as_str() else {
        return Err(MemberFault::BadMember(member));
    };
    match number_text(top, text.as_bytes()) {
        Some(number) => Ok(number),
        None => Err(MemberFault::BadMember(member)),
    }
}

/// The same, of a number below 2^16.
pub(crate) fn hex_u16<O: JsonObject>(
    object: &O,
    member: FlitMember,
    top: u16,
) -> Result<Option<u16>, MemberFault<FlitMember>>
    ensures { result ≡ hex_number member top (O.data_of object.now) }
{
    match hex_number(object, member, u64::from(top))? {
        Some(number) => Ok(Some(number as u16)),
        None => Ok(None),
    }
}

/// The same, of a number below 2^8.
pub(crate) fn hex_u8<O: JsonObject>(
    object: &O,
    member: FlitMember,
    top: u8,
) -> Result<Option<u8>, MemberFault<FlitMember>>
    ensures { result ≡ hex_number member top (O.data_of object.now) }
{
    match hex_number(object, member, u64::from(top))? {
        Some(number) => Ok(Some(number as u8)),
        None => Ok(None),
    }
}

/// The same, of a member that may be left out and is then 0.
#[tactic(auto, unfolding(crate::specs::Stated::hex_number))]
pub(crate) fn hex_or_zero<O: JsonObject>(
    object: &O,
    member: FlitMember,
    top: u8,
) -> Result<Option<u8>, MemberFault<FlitMember>>
    ensures { result ≡ hex_or_zero member top (O.data_of object.now) }
{
    if object.get(member.name()).is_none() {
        return Ok(Some(0));
    }
    hex_u8(object, member, top)
}

/// Whether a text is one of `unit` digits, or of twice or four times as many.
#[tactic(auto, unfolding(crate::specs::Stated::wide_text))]
fn is_wide(unit: usize, text: &[u8]) -> bool
    requires { unit ≤ 32 }
    ensures { result ≡ is_some (wide_text unit text.now) }
{
    let length = text.len();
    (length == unit || length == 2 * unit || length == 4 * unit) && is_text(text)
}

/// The digits that a member states: `unit` of them, or twice or four times as many.
#[tactic(auto, unfolding(crate::specs::Stated::digits_of, crate::specs::Stated::wide_text))]
pub(crate) fn digits<O: JsonObject>(
    object: &O,
    member: FlitMember,
    unit: usize,
) -> Result<&[u8], MemberFault<FlitMember>>
    requires { unit ≤ 32 }
    ensures { result_map_both (λ text. text.now) (λ fault. fault) result ≡ digits_of member unit (O.data_of object.now) }
{
    let value = stated(object, member)?;
    let Some(text) = value.as_str() else {
        return Err(MemberFault::BadMember(member));
    };
    if is_wide(unit, text.as_bytes()) {
        Ok(text.as_bytes())
    } else {
        Err(MemberFault::BadMember(member))
    }
}
