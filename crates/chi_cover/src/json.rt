//! A coverage as JSON.

ghost use Rattle.std.specs.Prelude.{◌≡◌, ◌++◌, OnOk, flat_map};
ghost use Rattle.chi_cover.specs.Counts.{count_in};
ghost use Rattle.chi_cover.specs.Json.{bin_json, bins_json, cover_json, covered_json, further, group_json, groups_json, own_goal, reason_json, reasons_json};
ghost use Rattle.chi_cover.specs.Refusals.{refused_in};

use crate::added_json::add_added;
use crate::bin::Bin;
use crate::covered::Covered;
use crate::group::{comparison_bins, enables_bins, operation_bins, result_bins};
use crate::names::add_bin_name;
use crate::plan::Plan;
use crate::plan_json::add_plan;
use crate::refusals::Refusals;
use crate::sequence_group::{line_sequence_bins, sequence_bins};
use crate::traffic_group::{open_bins, overlap_bins, requester_bins};
use chi_fields::{Refusal, refusal_name};
use chi_text::Part::{Number, Text};
use chi_text::add_parts;
use std::alloc::{AllocError, Global};

/// The goal of a bin, where it is another than that of all.
fn add_own_goal(to: &mut Vec<u8>, general: u64, goal: Option<u64>) -> Result<(), AllocError>
    ensures { OnOk result (to.new.items ≡ to.old.items ++ own_goal general goal) }
{
    match goal {
        None => add_parts(to, &[Text(",null")]),
        Some(goal) if goal == general => Ok(()),
        Some(goal) => add_parts(to, &[Text(",\""), Number(goal), Text("\"")]),
    }
}

/// A bin: its name, its count, and its goal, where it is another than that of all.
#[tactic(auto, unfolding(crate::specs::Json::bin_json))]
fn add_bin(to: &mut Vec<u8>, covered: &Covered, plan: &Plan, bin: Bin) -> Result<(), AllocError>
    ensures { OnOk result (to.new.items ≡ to.old.items ++ bin_json plan.now (count_in covered.now) bin) }
{
    add_parts(to, &[Text("[\"")])?;
    add_bin_name(to, bin)?;
    add_parts(to, &[Text("\",\""), Number(covered.count(bin)), Text("\"")])?;
    add_own_goal(to, plan.goal(), plan.goal_of(bin))?;
    add_parts(to, &[Text("]")])
}

/// A bin after another one.
fn add_further_bin(
    to: &mut Vec<u8>,
    covered: &Covered,
    plan: &Plan,
    bin: Bin,
) -> Result<(), AllocError>
    ensures { OnOk result (to.new.items ≡ to.old.items ++ further (bin_json plan.now (count_in covered.now)) bin) }
{
    add_parts(to, &[Text(",")])?;
    add_bin(to, covered, plan, bin)
}

/// Bins after another one.
fn add_further_bins(
    to: &mut Vec<u8>,
    covered: &Covered,
    plan: &Plan,
    bins: &[Bin],
) -> Result<(), AllocError>
    ensures { OnOk result (to.new.items ≡ to.old.items ++ flat_map (further (bin_json plan.now (count_in covered.now))) bins.now) }
{
    for bin in bins {
        add_further_bin(to, covered, plan, *bin)?;
    }
    Ok(())
}

/// Bins, one after the other.
#[tactic(auto, unfolding(crate::specs::Json::bins_json))]
fn add_bins(
    to: &mut Vec<u8>,
    covered: &Covered,
    plan: &Plan,
    bins: &[Bin],
) -> Result<(), AllocError>
    ensures { OnOk result (to.new.items ≡ to.old.items ++ bins_json plan.now (count_in covered.now) bins.now) }
{
    let Some((first, rest)) = bins.split_first() else {
        return Ok(());
    };
    add_bin(to, covered, plan, *first)?;
    add_further_bins(to, covered, plan, rest)
}

/// A group: its name, and its bins.
#[tactic(auto, unfolding(crate::specs::Json::group_json))]
fn add_group(
    to: &mut Vec<u8>,
    covered: &Covered,
    plan: &Plan,
    name: &'static str,
    bins: &[Bin],
) -> Result<(), AllocError>
    ensures { OnOk result (to.new.items ≡ to.old.items ++ group_json plan.now (count_in covered.now) (name.now, bins.now)) }
{
    add_parts(
        to,
        &[Text("{\"name\":\""), Text(name), Text("\",\"bins\":[")],
    )?;
    add_bins(to, covered, plan, bins)?;
    add_parts(to, &[Text("]}")])
}

/// A group after another one.
fn add_further_group(
    to: &mut Vec<u8>,
    covered: &Covered,
    plan: &Plan,
    name: &'static str,
    bins: &[Bin],
) -> Result<(), AllocError>
    ensures { OnOk result (to.new.items ≡ to.old.items ++ further (group_json plan.now (count_in covered.now)) (name.now, bins.now)) }
{
    add_parts(to, &[Text(",")])?;
    add_group(to, covered, plan, name, bins)
}

/// The groups.
fn add_groups(
    alloc: Global,
    to: &mut Vec<u8>,
    covered: &Covered,
    plan: &Plan,
) -> Result<(), AllocError>
    ensures { OnOk result (to.new.items ≡ to.old.items ++ groups_json plan.now (count_in covered.now)) }
{
    add_group(to, covered, plan, "operations", &operation_bins(alloc)?)?;
    add_further_group(to, covered, plan, "compares", &comparison_bins(alloc)?)?;
    add_further_group(to, covered, plan, "writes", &enables_bins(alloc)?)?;
    add_further_group(to, covered, plan, "results", &result_bins(alloc)?)?;
    add_further_group(to, covered, plan, "open at once", &open_bins(alloc)?)?;
    add_further_group(to, covered, plan, "overlaps", &overlap_bins(alloc)?)?;
    add_further_group(to, covered, plan, "requesters", &requester_bins(alloc)?)?;
    add_further_group(to, covered, plan, "sequences", &sequence_bins(alloc)?)?;
    add_further_group(
        to,
        covered,
        plan,
        "line sequences",
        &line_sequence_bins(alloc)?,
    )
}

/// How many bins are covered, of how many that are not excluded, and the goal of all.
#[tactic(auto, unfolding(crate::specs::Json::covered_json))]
fn add_covered(to: &mut Vec<u8>, covered: &Covered, plan: &Plan) -> Result<(), AllocError>
    ensures { OnOk result (to.new.items ≡ to.old.items ++ covered_json plan.now (count_in covered.now)) }
{
    add_parts(
        to,
        &[
            Text("\"covered\":\""),
            Number(covered.covered(plan) as u64),
            Text("\",\"bins\":\""),
            Number(plan.wanted() as u64),
            Text("\",\"percent\":\""),
            Number(covered.percent(plan) as u64),
            Text("\",\"goal\":\""),
            Number(plan.goal()),
            Text("\""),
        ],
    )
}

/// A reason: its name, and how many requests were refused for it.
#[tactic(auto, unfolding(crate::specs::Json::reason_json))]
fn add_reason(to: &mut Vec<u8>, refusals: &Refusals, reason: Refusal) -> Result<(), AllocError>
    ensures { OnOk result (to.new.items ≡ to.old.items ++ reason_json (refused_in refusals.now) reason) }
{
    add_parts(
        to,
        &[
            Text("[\""),
            Text(refusal_name(reason)),
            Text("\",\""),
            Number(refusals.count(reason)),
            Text("\"]"),
        ],
    )
}

/// A reason after another one.
fn add_further_reason(
    to: &mut Vec<u8>,
    refusals: &Refusals,
    reason: Refusal,
) -> Result<(), AllocError>
    ensures { OnOk result (to.new.items ≡ to.old.items ++ further (reason_json (refused_in refusals.now)) reason) }
{
    add_parts(to, &[Text(",")])?;
    add_reason(to, refusals, reason)
}

/// Reasons after another one.
fn add_further_reasons(
    to: &mut Vec<u8>,
    refusals: &Refusals,
    reasons: &[Refusal],
) -> Result<(), AllocError>
    ensures { OnOk result (to.new.items ≡ to.old.items ++ flat_map (further (reason_json (refused_in refusals.now))) reasons.now) }
{
    for reason in reasons {
        add_further_reason(to, refusals, *reason)?;
    }
    Ok(())
}

/// Reasons, one after the other.
#[tactic(auto, unfolding(crate::specs::Json::reasons_json))]
fn add_reasons(to: &mut Vec<u8>, refusals: &Refusals, reasons: &[Refusal]) -> Result<(), AllocError>
    ensures { OnOk result (to.new.items ≡ to.old.items ++ reasons_json (refused_in refusals.now) reasons.now) }
{
    let Some((first, rest)) = reasons.split_first() else {
        return Ok(());
    };
    add_reason(to, refusals, *first)?;
    add_further_reasons(to, refusals, rest)
}

/// Adds a coverage to a text as a JSON object on a line of its own: how many bins are covered, the rules of the plan, how many bins
/// each input added, each group with the name and the count of its bins, and how many requests were refused for each reason. Numbers
/// are strings. A bin with another goal than that of all has it as a third element, which is null where the bin is excluded. `added`
/// has a number for each input.
///
/// ```
/// add_json(alloc, &mut text, &covered, &refusals, &plan, &[6])?; // {"covered":"6","bins":"1410","percent":"0","goal":"1",..
/// ```
#[tactic(auto, unfolding(crate::specs::Json::cover_json))]
pub fn add_json(
    alloc: Global,
    to: &mut Vec<u8>,
    covered: &Covered,
    refusals: &Refusals,
    plan: &Plan,
    added: &[u64],
) -> Result<(), AllocError>
    ensures { OnOk result (to.new.items ≡ to.old.items ++ cover_json plan.now added.now (count_in covered.now) (refused_in refusals.now)) }
{
    add_parts(to, &[Text("{")])?;
    add_covered(to, covered, plan)?;
    add_plan(alloc, to, plan.rules())?;
    add_added(to, added)?;
    add_parts(to, &[Text(",\"groups\":[")])?;
    add_groups(alloc, to, covered, plan)?;
    add_parts(to, &[Text("],\"refused\":[")])?;
    add_reasons(to, refusals, &Refusal::ALL)?;
    add_parts(to, &[Text("]}\n")])
}
