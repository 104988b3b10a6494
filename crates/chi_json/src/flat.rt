//! Objects that are read with no allocation: of few members, none of which is a list or an object.

ghost use Rattle.std.specs.Prelude.{◌≡◌, [], IsTrue, None, map};
ghost use Rattle.std.specs.Option.{option_map};
ghost use Rattle.serde_json.specs.Data.{no_members};
ghost use Rattle.serde_json.specs.Find.{get_member};
ghost use Rattle.chi_json.specs.Datum.{datum_data};
ghost use Rattle.chi_json.specs.Flat.{flat_members, put_all};
ghost use Rattle.chi_json.specs.Unknown.{is_known, unknown_in};

use crate::datum::{Datum, JsonObject};
use crate::member::Named;
use crate::unknown::is_known;
use arrayvec::ArrayVec;

/// How many members are kept.
pub(crate) const ROOM: usize = 16;

/// An object of at most 15 members, as they stand in its text: each is null, true or false, a whole number below 2^64, or a text.
///
/// ```
/// let object = flat_object(b"{\"time\":70}", &mut scratch)?;
/// ```
#[derive(Drop)]
pub struct FlatObject<'a> {
    pub(crate) members: ArrayVec<(&'a str, Datum<'a>), ROOM>,
}

/// The value of the last of these members that has a name.
fn last_named<'a>(members: &[(&'a str, Datum<'a>)], name: &str) -> Option<Datum<'a>>
    ensures { option_map datum_data result ≡ get_member name.now (put_all members.now no_members) }
{
    let mut left = members.len();
    'members: while left > 0 {
        left -= 1;
        let member = &members[left];
        if member.0 == name {
            return Some(member.1);
        }
    }
    None
}

/// Whether the member at a place of the last of these lists has this name.
#[tactic(auto, unfolding(crate::specs::Unknown::is_known))]
fn is_at<M: Named>(name: &str, known: &[&[M]], place: usize) -> bool
    ensures { IsTrue result → IsTrue (is_known M.name_of (map (λ list. list.now) known.now) name.now) }
{
    let Some(members) = known.last() else {
        return false;
    };
    match members.get(place) {
        Some(member) => member.name() == name,
        None => false,
    }
}

/// Whether each of these members is in one of these lists, or is ignored. Most stand in the order of the last list, which is looked at
/// first.
fn are_known<M: Named>(members: &[(&str, Datum<'_>)], known: &[&[M]]) -> bool
    ensures { IsTrue result → unknown_in M.name_of (map (λ list. list.now) known.now) (put_all members.now no_members) ≡ None }
{
    let mut next = 0;
    'members: for member in members {
        if is_at(member.0, known, next) {
            next = next.saturating_add(1);
        } else if !is_known(member.0, known) {
            return false;
        }
    }
    true
}

impl<'a> FlatObject<'a> {
    /// An object with no member.
    pub(crate) fn none() -> FlatObject<'a>
        ensures { result.members.items ≡ [] }
    {
        FlatObject {
            members: ArrayVec::new(),
        }
    }

    /// Whether it has only members of these lists, beside those that are ignored.
    ///
    /// ```
    /// let is_whole = object.has_only(&[&[Member::Time], &FIELDS]);
    /// ```
    pub fn has_only<M: Named>(&self, known: &[&[M]]) -> bool
        ensures { IsTrue result → unknown_in M.name_of (map (λ list. list.now) known.now) (flat_members self.now) ≡ None }
    {
        are_known(self.members.as_slice(), known)
    }
}

impl<'a> JsonObject for FlatObject<'a> {
    ghost use Rattle.chi_json.specs.Flat.{flat_data};

    ghost data_of = { flat_data };

    fn get(&self, name: &str) -> Option<Datum<'_>> {
        last_named(self.members.as_slice(), name)
    }
}
