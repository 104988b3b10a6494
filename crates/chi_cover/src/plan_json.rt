//! The rules of a plan as JSON.

ghost use Rattle.std.specs.Prelude.{◌≡◌, ◌<◌, ◌++◌, OnOk, flat_map};
ghost use Rattle.chi_cover.specs.Json.{further};
ghost use Rattle.chi_cover.specs.PlanJson.{escaped, goal_json, hex_digit, plan_json, rule_json, rules_json, string_json};

use crate::pattern::bins_fitting;
use crate::plan::Rule;
use chi_text::Part::{Number, Text};
use chi_text::add_parts;
use std::alloc::{AllocError, Global};

/// A digit of base 16.
fn hex_digit(digit: u8) -> u8
    requires { digit < 16 }
    ensures { result ≡ hex_digit digit }
{
    if digit < 10 {
        b'0' + digit
    } else {
        b'a' - 10 + digit
    }
}

/// A character within a string of JSON.
fn add_escaped(to: &mut Vec<u8>, letter: u8) -> Result<(), AllocError>
    ensures { OnOk result (to.new.items ≡ to.old.items ++ escaped letter) }
{
    if letter >= 32 && letter != b'"' && letter != b'\\' && letter != b'<' {
        to.push(letter)?;
        return Ok(());
    }
    add_parts(to, &[Text("\\u00")])?;
    to.push(hex_digit(letter / 16))?;
    to.push(hex_digit(letter % 16))?;
    Ok(())
}

/// The characters of a string of JSON.
fn add_each_escaped(to: &mut Vec<u8>, text: &[u8]) -> Result<(), AllocError>
    ensures { OnOk result (to.new.items ≡ to.old.items ++ flat_map escaped text.now) }
{
    for letter in text {
        add_escaped(to, *letter)?;
    }
    Ok(())
}

/// A text as a string of JSON.
#[tactic(auto, unfolding(crate::specs::PlanJson::string_json))]
fn add_string(to: &mut Vec<u8>, text: &[u8]) -> Result<(), AllocError>
    ensures { OnOk result (to.new.items ≡ to.old.items ++ string_json text.now) }
{
    add_parts(to, &[Text("\"")])?;
    add_each_escaped(to, text)?;
    add_parts(to, &[Text("\"")])
}

/// A goal, and null where there is none.
fn add_goal(to: &mut Vec<u8>, goal: Option<u64>) -> Result<(), AllocError>
    ensures { OnOk result (to.new.items ≡ to.old.items ++ goal_json goal) }
{
    match goal {
        None => add_parts(to, &[Text("null")]),
        Some(goal) => add_parts(to, &[Text("\""), Number(goal), Text("\"")]),
    }
}

/// A rule: its pattern, how many bins fit, their goal, and the reason.
#[tactic(auto, unfolding(crate::specs::PlanJson::rule_json))]
fn add_rule(alloc: Global, to: &mut Vec<u8>, rule: &Rule) -> Result<(), AllocError>
    ensures { OnOk result (to.new.items ≡ to.old.items ++ rule_json rule.now) }
{
    add_parts(to, &[Text("{\"bins\":")])?;
    add_string(to, &rule.bins)?;
    let count = bins_fitting(alloc, &rule.bins)?;
    add_parts(
        to,
        &[
            Text(",\"count\":\""),
            Number(count as u64),
            Text("\",\"goal\":"),
        ],
    )?;
    add_goal(to, rule.goal)?;
    add_parts(to, &[Text(",\"why\":")])?;
    add_string(to, &rule.why)?;
    add_parts(to, &[Text("}")])
}

/// Rules after another one.
fn add_further_rules(alloc: Global, to: &mut Vec<u8>, rules: &[Rule]) -> Result<(), AllocError>
    ensures { OnOk result (to.new.items ≡ to.old.items ++ flat_map (further rule_json) rules.now) }
{
    for rule in rules {
        add_parts(to, &[Text(",")])?;
        add_rule(alloc, to, rule)?;
    }
    Ok(())
}

/// The rules of a plan, one after the other.
#[tactic(auto, unfolding(crate::specs::PlanJson::rules_json))]
fn add_rules(alloc: Global, to: &mut Vec<u8>, rules: &[Rule]) -> Result<(), AllocError>
    ensures { OnOk result (to.new.items ≡ to.old.items ++ rules_json rules.now) }
{
    let Some((first, rest)) = rules.split_first() else {
        return Ok(());
    };
    add_rule(alloc, to, first)?;
    add_further_rules(alloc, to, rest)
}

/// The member that has the rules of a plan, after another one.
#[tactic(auto, unfolding(crate::specs::PlanJson::plan_json))]
pub(crate) fn add_plan(alloc: Global, to: &mut Vec<u8>, rules: &[Rule]) -> Result<(), AllocError>
    ensures { OnOk result (to.new.items ≡ to.old.items ++ plan_json rules.now) }
{
    add_parts(to, &[Text(",\"plan\":[")])?;
    add_rules(alloc, to, rules)?;
    add_parts(to, &[Text("]")])
}
