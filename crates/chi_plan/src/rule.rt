//! The rule that an object states.

ghost use Rattle.std.specs.Prelude.{◌≡◌, ◌≢◌, Err, IfErr, IfOk, Ok};
ghost use Rattle.std.specs.Result.{result_map_both};
ghost use Rattle.serde_json.specs.View.{members_view, view};
ghost use Rattle.chi_plan.specs.Rules.{goal_of, object_rule, stated_of, why_of};

use crate::member::{Member, RULE};
use chi_cover::Rule;
use chi_json::{MemberFault, Named, ObjectFault, number, stated, unknown_member};
use serde_json::{Map, Value};
use std::alloc::Global;

/// How many operations each bin has to count, where the object says so.
#[tactic(auto, unfolding(crate::specs::Rules::goal_of))]
fn goal(object: &Value) -> Result<Option<u64>, MemberFault<Member>>
    ensures { result ≡ goal_of (view object.now) }
{
    if object.get(Member::Goal.name()).is_none() {
        return Ok(None);
    }
    let goal = number(object, Member::Goal, u64::MAX)?;
    Ok(Some(goal))
}

/// The reason, a text that is not empty. It may be left out where there is a goal, and is empty then.
#[tactic(auto, unfolding(crate::specs::Rules::why_of))]
fn why(object: &Value, goal: Option<u64>) -> Result<&str, MemberFault<Member>>
    ensures { result_map_both (λ text. text.now) (λ fault. fault) result ≡ why_of goal (view object.now) }
{
    if goal.is_some() && object.get(Member::Why.name()).is_none() {
        return Ok("");
    }
    match stated(object, Member::Why)?.as_str() {
        Some(text) if !text.is_empty() => Ok(text),
        _ => Err(MemberFault::BadMember(Member::Why)),
    }
}

/// What the members of an object state.
#[tactic(auto, unfolding(crate::specs::Rules::stated_of))]
fn stated_rule(alloc: Global, object: &Value) -> Result<Rule, MemberFault<Member>>
    ensures ok { IfOk result (λ rule. stated_of (view object.now) ≡ Ok rule) }
    ensures fault { IfErr result (λ f. f ≢ MemberFault.Memory → stated_of (view object.now) ≡ Err f) }
{
    let Some(bins) = stated(object, Member::Bins)?.as_str() else {
        return Err(MemberFault::BadMember(Member::Bins));
    };
    let goal = goal(object)?;
    let why = why(object, goal)?;
    match (
        Vec::from_slice(alloc, bins.as_bytes()),
        Vec::from_slice(alloc, why.as_bytes()),
    ) {
        (Ok(bins), Ok(why)) => Ok(Rule { bins, goal, why }),
        _ => Err(MemberFault::Memory),
    }
}

/// The rule that an object with these members is. The faults' order is that of `bins`, `goal`, `why`, and members that a rule does
/// not have.
#[tactic(auto, unfolding(crate::specs::Rules::object_rule))]
pub(crate) fn object_rule(
    alloc: Global,
    object: &Value,
    members: &Map<String, Value>,
) -> Result<Rule, ObjectFault<Member>>
    ensures ok { IfOk result (λ rule. object_rule (view object.now) (members_view members.now.entries) ≡ Ok rule) }
    ensures fault { IfErr result (λ f. f ≢ ObjectFault.Memory → object_rule (view object.now) (members_view members.now.entries) ≡ Err f) }
{
    let rule = match stated_rule(alloc, object) {
        Ok(rule) => rule,
        Err(fault) => return Err(ObjectFault::of_member(object, fault)),
    };
    match unknown_member(members, &[&RULE]) {
        Some(name) => Err(ObjectFault::UnknownMember(name)),
        None => Ok(rule),
    }
}
