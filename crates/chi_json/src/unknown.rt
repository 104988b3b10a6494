//! Members that an object may not have.

ghost use Rattle.std.specs.Prelude.{◌≡◌, map};
ghost use Rattle.serde_json.specs.View.{members_view};
ghost use Rattle.chi_json.specs.Unknown.{is_among, is_ignored, is_known, unknown_in};

use crate::member::Named;
use crate::shown::ShownText;
use serde_json::{Map, Value};

/// Whether a member of this name is ignored: its name begins with `x-`.
fn is_ignored(name: &str) -> bool
    ensures { result ≡ is_ignored name.now }
{
    name.starts_with("x-")
}

/// Whether this is the name of one of these members.
fn is_among<M: Named>(name: &str, known: &[M]) -> bool
    ensures { result ≡ is_among M.name_of known.now name.now }
{
    known.iter().any(|member| member.name() == name)
}

/// Whether an object that may have the members of some lists may have one of this name, which begins with `x-` or is that of a member.
///
/// ```
/// let is_other = !is_known(name, &[&[Member::Time], &FIELDS]);
/// ```
#[tactic(auto, unfolding(crate::specs::Unknown::is_known))]
pub fn is_known<M: Named>(name: &str, known: &[&[M]]) -> bool
    ensures { result ≡ is_known M.name_of (map (λ members. members.now) known.now) name.now }
{
    is_ignored(name) || known.iter().any(|members| is_among(name, members))
}

/// The name of the first member that is in none of these lists, where there is one. Members whose name begins with `x-` are ignored.
///
/// ```
/// let name = unknown_member(object.as_object()?, &[&[Member::Time], &FIELDS])?;
/// ```
#[tactic(auto, unfolding(crate::proofs::UnknownNames::unknown_among), using(crate::proofs::UnknownNames::unknown_keys))]
pub fn unknown_member<M: Named>(members: &Map<String, Value>, known: &[&[M]]) -> Option<ShownText>
    ensures { result ≡ unknown_in M.name_of (map (λ members. members.now) known.now) (members_view members.now.entries) }
{
    for name in members.keys() {
        if !is_known(name.as_str(), known) {
            return Some(ShownText::of(name.as_str()));
        }
    }
    None
}
