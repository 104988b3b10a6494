//! The members of a rule.

ghost use Rattle.std.specs.Prelude.{◌≡◌};
ghost use Rattle.chi_plan.specs.Member.{member_name};

use chi_json::Named;

/// A member of the object that a rule is: the pattern of its bins, how many operations each has to count, and a reason.
#[derive(Clone, Copy, Debug, PartialEq, Eq)]
pub enum Member {
    Bins,
    Goal,
    Why,
}

/// The members that a rule may have.
pub(crate) const RULE: [Member; 3] = [Member::Bins, Member::Goal, Member::Why];

impl Named for Member {
    ghost name_of = { member_name };

    fn name(self) -> &'static str {
        match self {
            Member::Bins => "bins",
            Member::Goal => "goal",
            Member::Why => "why",
        }
    }

    fn wanted(self) -> &'static str {
        match self {
            Member::Bins => "a text",
            Member::Goal => "a whole number below 2^64",
            Member::Why => "a text that says something",
        }
    }
}
