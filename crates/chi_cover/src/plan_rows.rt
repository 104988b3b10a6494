//! The rules of a plan, as a text.

ghost use Rattle.std.specs.Prelude.{◌≡◌, ◌++◌, OnOk};
ghost use Rattle.chi_cover.specs.PlanTexts.{effect_text, on_one_line, reason_text, rule_line, rules_text};

use crate::pattern::bins_fitting;
use crate::plan::Rule;
use chi_text::Part::{Number, Text};
use chi_text::add_parts;
use std::alloc::{AllocError, Global};

/// A text on one line: a blank stands for each control character.
fn add_on_one_line(to: &mut Vec<u8>, text: &[u8]) -> Result<(), AllocError>
    ensures { OnOk result (to.new.items ≡ to.old.items ++ on_one_line text.now) }
{
    for letter in text {
        to.push(if *letter < 32 { b' ' } else { *letter })?;
    }
    Ok(())
}

/// What a rule does to its bins.
fn add_effect(to: &mut Vec<u8>, goal: Option<u64>) -> Result<(), AllocError>
    ensures { OnOk result (to.new.items ≡ to.old.items ++ effect_text goal) }
{
    match goal {
        None => add_parts(to, &[Text("excluded by ")]),
        Some(goal) => add_parts(to, &[Text("at least "), Number(goal), Text(" by ")]),
    }
}

/// The reason of a rule, where there is one.
fn add_reason(to: &mut Vec<u8>, why: &[u8]) -> Result<(), AllocError>
    ensures { OnOk result (to.new.items ≡ to.old.items ++ reason_text why.now) }
{
    if why.is_empty() {
        return Ok(());
    }
    add_parts(to, &[Text(" (")])?;
    add_on_one_line(to, why)?;
    add_parts(to, &[Text(")")])
}

/// A rule: what it does, its pattern, how many bins fit, and the reason.
#[tactic(auto, unfolding(crate::specs::PlanTexts::rule_line))]
fn add_rule(alloc: Global, to: &mut Vec<u8>, rule: &Rule) -> Result<(), AllocError>
    ensures { OnOk result (to.new.items ≡ to.old.items ++ rule_line rule.now) }
{
    add_effect(to, rule.goal)?;
    add_on_one_line(to, &rule.bins)?;
    let count = bins_fitting(alloc, &rule.bins)?;
    add_parts(to, &[Text(": "), Number(count as u64)])?;
    add_reason(to, &rule.why)?;
    add_parts(to, &[Text("\n")])
}

/// The rules of a plan.
pub(crate) fn add_rules(alloc: Global, to: &mut Vec<u8>, rules: &[Rule]) -> Result<(), AllocError>
    ensures { OnOk result (to.new.items ≡ to.old.items ++ rules_text rules.now) }
{
    for rule in rules {
        add_rule(alloc, to, rule)?;
    }
    Ok(())
}
