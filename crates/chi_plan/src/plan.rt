//! The plan that a text states.

ghost use Rattle.std.specs.Prelude.{◌≡◌, ◌≢◌, Err, IfErr, IfOk, Ok};
ghost use Rattle.serde_json.specs.View.{items_view, view};
ghost use Rattle.chi_cover.specs.Plan.{IsPlan};
ghost use Rattle.chi_plan.specs.Rules.{IsPlanOf, rule_at, rules_from, rules_text};

use crate::fault::PlanFault;
use crate::rule::object_rule;
use chi_cover::{Plan, Rule, bins_fitting};
use chi_json::{ObjectFault, json};
use serde_json::Value;
use std::alloc::Global;

/// The rule with a number.
#[tactic(auto, unfolding(crate::specs::Rules::rule_at))]
fn rule_at(alloc: Global, number: usize, value: &Value) -> Result<Rule, PlanFault>
    ensures ok { IfOk result (λ rule. rule_at number (view value.now) ≡ Ok rule) }
    ensures fault { IfErr result (λ f. f ≢ PlanFault.Memory → rule_at number (view value.now) ≡ Err f) }
{
    let Some(members) = value.as_object() else {
        let fault = ObjectFault::NotObject;
        return Err(PlanFault::InRule { number, fault });
    };
    let rule = match object_rule(alloc, value, members) {
        Ok(rule) => rule,
        Err(ObjectFault::Memory) => return Err(PlanFault::Memory),
        Err(fault) => return Err(PlanFault::InRule { number, fault }),
    };
    if bins_fitting(alloc, &rule.bins)? == 0 {
        return Err(PlanFault::NoBin { number });
    }
    Ok(rule)
}

/// The plan of the rules of an array, of which the first has the number 1.
fn plan_of(alloc: Global, list: &[Value], goal: u64) -> Result<Plan, PlanFault>
    ensures rules { IfOk result (λ plan. rules_from 1 (items_view list.now) ≡ Ok plan.rules) }
    ensures plan { IfOk result (λ plan. IsPlan goal plan.rules plan) }
    ensures fault { IfErr result (λ f. f ≢ PlanFault.Memory → rules_from 1 (items_view list.now) ≡ Err f) }
{
    let mut plan = Plan::of_goal(alloc, goal)?;
    for (place, value) in list.iter().enumerate() {
        let rule = rule_at(alloc, place + 1, value)?;
        plan.add(alloc, rule)?;
    }
    Ok(plan)
}

/// The plan that a text states, with this goal of all bins, or its first fault.
///
/// The text is one JSON array in UTF-8, of objects. Each has `bins`, the pattern of its bins, in which each `*` stands for any
/// characters, and which at least one bin fits; `goal`, a whole number below 2^64, unless its bins are excluded; and `why`, a text
/// that is not empty, which may be left out beside a goal. Members whose name begins with `x-` are ignored, and others are a fault.
///
/// `Memory` is answered where a growth is refused before a fault is met.
///
/// ```
/// let plan = read_plan(alloc, b"[{\"bins\":\"* while *\",\"goal\":10}]", 1)?;
/// ```
#[tactic(auto, unfolding(crate::specs::Rules::rules_text))]
pub fn read_plan(alloc: Global, text: &[u8], goal: u64) -> Result<Plan, PlanFault>
    ensures ok { IfOk result (IsPlanOf text.now goal) }
    ensures fault { IfErr result (λ f. f ≢ PlanFault.Memory → rules_text text.now ≡ Err f) }
{
    let Some(value) = json(alloc, text)? else {
        return Err(PlanFault::NotJson);
    };
    match value.as_array() {
        Some(list) => plan_of(alloc, list.as_slice(), goal),
        None => Err(PlanFault::NotArray),
    }
}
