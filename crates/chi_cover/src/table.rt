//! The table of a coverage, as a text.

ghost use Rattle.std.specs.Prelude.{◌≡◌, ◌++◌, OnOk, flat_map};
ghost use Rattle.chi_fields.specs.Opcode.{all_ops};
ghost use Rattle.chi_cover.specs.Bins.{all_bins, all_kinds, lengths};
ghost use Rattle.chi_cover.specs.Texts.{comparison_row, covered_line, enables_row, goal_text, group_text, head_text, kind_rows, op_rows, operations_text, table_text, traffic_row, traffic_text};
ghost use Rattle.chi_cover.specs.Counts.{count_in, covered_of, wanted_of};
ghost use Rattle.chi_cover.specs.Plan.{goal_in};
ghost use Rattle.chi_cover.specs.PlanTexts.{bin_line};

use crate::bin::Bin;
use crate::covered::{Covered, is_covered};
use crate::group::{KINDS, LENGTHS, comparison_bins, enables_bins, operation_bins, result_bins};
use crate::lines::{add_bin_line, add_traffic_row};
use crate::plan::Plan;
use crate::plan_rows::add_rules;
use crate::rows::{add_comparison_row, add_enables_row, add_kind_rows, add_op_rows};
use crate::sequence_group::{line_sequence_bins, sequence_bins};
use crate::traffic_group::{all_bins, open_bins, overlap_bins, requester_bins};
use chi_fields::Op;
use chi_text::Part::{Number, Text};
use chi_text::add_parts;
use std::alloc::{AllocError, Global};

/// How many of these bins are covered.
fn covered_of(covered: &Covered, plan: &Plan, bins: &[Bin]) -> usize
    ensures { result ≡ covered_of (goal_in plan.now) (count_in covered.now) bins.now }
{
    let mut count = 0;
    for bin in bins {
        if is_covered(plan.goal_of(*bin), covered.count(*bin)) {
            count += 1;
        }
    }
    count
}

/// How many of these bins are not excluded.
fn wanted_of(plan: &Plan, bins: &[Bin]) -> usize
    ensures { result ≡ wanted_of (goal_in plan.now) bins.now }
{
    let mut count = 0;
    for bin in bins {
        if plan.goal_of(*bin).is_some() {
            count += 1;
        }
    }
    count
}

/// The head of a group.
#[tactic(auto, unfolding(crate::specs::Texts::head_text))]
fn add_head(
    to: &mut Vec<u8>,
    covered: &Covered,
    plan: &Plan,
    name: &'static str,
    bins: &[Bin],
) -> Result<(), AllocError>
    ensures { OnOk result (to.new.items ≡ to.old.items ++ head_text (goal_in plan.now) (count_in covered.now) name.now bins.now) }
{
    add_parts(
        to,
        &[
            Text(name),
            Text(": "),
            Number(covered_of(covered, plan, bins) as u64),
            Text(" of "),
            Number(wanted_of(plan, bins) as u64),
            Text("\n"),
        ],
    )
}

/// A goal of all bins that is another than one operation.
fn add_goal(to: &mut Vec<u8>, goal: u64) -> Result<(), AllocError>
    ensures { OnOk result (to.new.items ≡ to.old.items ++ goal_text goal) }
{
    if goal == 1 {
        return Ok(());
    }
    add_parts(to, &[Text(", each at least "), Number(goal)])
}

/// How many bins that are not excluded are covered, and the goal of all.
#[tactic(auto, unfolding(crate::specs::Texts::covered_line))]
fn add_covered(to: &mut Vec<u8>, covered: &Covered, plan: &Plan) -> Result<(), AllocError>
    ensures { OnOk result (to.new.items ≡ to.old.items ++ covered_line plan.now (count_in covered.now)) }
{
    add_parts(
        to,
        &[
            Text("covered: "),
            Number(covered.covered(plan) as u64),
            Text(" of "),
            Number(plan.wanted() as u64),
            Text(" ("),
            Number(covered.percent(plan) as u64),
            Text("%)"),
        ],
    )?;
    add_goal(to, plan.goal())?;
    add_parts(to, &[Text("\n")])
}

fn add_all_kinds(to: &mut Vec<u8>, covered: &Covered) -> Result<(), AllocError>
    ensures { OnOk result (to.new.items ≡ to.old.items ++ flat_map (kind_rows (count_in covered.now)) all_kinds) }
{
    for kind in KINDS {
        add_kind_rows(to, covered, kind)?;
    }
    Ok(())
}

fn add_all_comparisons(to: &mut Vec<u8>, covered: &Covered) -> Result<(), AllocError>
    ensures { OnOk result (to.new.items ≡ to.old.items ++ flat_map (comparison_row (count_in covered.now)) lengths) }
{
    for len in LENGTHS {
        add_comparison_row(to, covered, len)?;
    }
    Ok(())
}

fn add_all_enables(to: &mut Vec<u8>, covered: &Covered) -> Result<(), AllocError>
    ensures { OnOk result (to.new.items ≡ to.old.items ++ flat_map (enables_row (count_in covered.now)) lengths) }
{
    for len in LENGTHS {
        add_enables_row(to, covered, len)?;
    }
    Ok(())
}

fn add_all_results(to: &mut Vec<u8>, covered: &Covered) -> Result<(), AllocError>
    ensures { OnOk result (to.new.items ≡ to.old.items ++ flat_map (op_rows (count_in covered.now)) all_ops) }
{
    for op in Op::ALL {
        add_op_rows(to, covered, op)?;
    }
    Ok(())
}

fn add_each_row(to: &mut Vec<u8>, covered: &Covered, bins: &[Bin]) -> Result<(), AllocError>
    ensures { OnOk result (to.new.items ≡ to.old.items ++ flat_map (traffic_row (count_in covered.now)) bins.now) }
{
    for bin in bins {
        add_traffic_row(to, covered, *bin)?;
    }
    Ok(())
}

fn add_each_line(
    to: &mut Vec<u8>,
    covered: &Covered,
    plan: &Plan,
    bins: &[Bin],
) -> Result<(), AllocError>
    ensures { OnOk result (to.new.items ≡ to.old.items ++ flat_map (bin_line (goal_in plan.now) (count_in covered.now)) bins.now) }
{
    for bin in bins {
        add_bin_line(to, covered, plan, *bin)?;
    }
    Ok(())
}

/// The groups of bins of operations.
#[tactic(auto, unfolding(crate::specs::Texts::operations_text))]
fn add_of_operations(
    alloc: Global,
    to: &mut Vec<u8>,
    covered: &Covered,
    plan: &Plan,
) -> Result<(), AllocError>
    ensures { OnOk result (to.new.items ≡ to.old.items ++ operations_text (goal_in plan.now) (count_in covered.now)) }
{
    add_head(to, covered, plan, "operations", &operation_bins(alloc)?)?;
    add_all_kinds(to, covered)?;
    add_head(to, covered, plan, "compares", &comparison_bins(alloc)?)?;
    add_all_comparisons(to, covered)?;
    add_head(to, covered, plan, "writes", &enables_bins(alloc)?)?;
    add_all_enables(to, covered)?;
    add_head(to, covered, plan, "results", &result_bins(alloc)?)?;
    add_all_results(to, covered)
}

/// The head of a group of traffic or of sequences, and the row of each of its bins.
fn add_group(
    to: &mut Vec<u8>,
    covered: &Covered,
    plan: &Plan,
    name: &'static str,
    bins: &[Bin],
) -> Result<(), AllocError>
    ensures { OnOk result (to.new.items ≡ to.old.items ++ group_text (goal_in plan.now) (count_in covered.now) name.now bins.now) }
{
    add_head(to, covered, plan, name, bins)?;
    add_each_row(to, covered, bins)
}

/// The groups of bins of traffic and of sequences.
#[tactic(auto, unfolding(crate::specs::Texts::traffic_text))]
fn add_of_traffic(
    alloc: Global,
    to: &mut Vec<u8>,
    covered: &Covered,
    plan: &Plan,
) -> Result<(), AllocError>
    ensures { OnOk result (to.new.items ≡ to.old.items ++ traffic_text (goal_in plan.now) (count_in covered.now)) }
{
    add_group(to, covered, plan, "open at once", &open_bins(alloc)?)?;
    add_group(to, covered, plan, "overlaps", &overlap_bins(alloc)?)?;
    add_group(to, covered, plan, "requesters", &requester_bins(alloc)?)?;
    add_group(to, covered, plan, "sequences", &sequence_bins(alloc)?)?;
    add_group(
        to,
        covered,
        plan,
        "line sequences",
        &line_sequence_bins(alloc)?,
    )
}

/// The bins that are missing, and those that were met though they are excluded.
fn add_all_lines(
    alloc: Global,
    to: &mut Vec<u8>,
    covered: &Covered,
    plan: &Plan,
) -> Result<(), AllocError>
    ensures { OnOk result (to.new.items ≡ to.old.items ++ flat_map (bin_line (goal_in plan.now) (count_in covered.now)) all_bins) }
{
    add_each_line(to, covered, plan, &all_bins(alloc)?)
}

/// Adds the table of a coverage to a text: of each group how many of its bins are covered, and the counts of all; how many bins of
/// all are covered; the rules of the plan; and a line for each bin that is missing, or was met though it is excluded.
///
/// ```
/// add_table(alloc, &mut text, &covered, &plan)?;
/// ```
#[tactic(auto, unfolding(crate::specs::Texts::table_text))]
pub fn add_table(
    alloc: Global,
    to: &mut Vec<u8>,
    covered: &Covered,
    plan: &Plan,
) -> Result<(), AllocError>
    ensures { OnOk result (to.new.items ≡ to.old.items ++ table_text plan.now (count_in covered.now)) }
{
    add_of_operations(alloc, to, covered, plan)?;
    add_of_traffic(alloc, to, covered, plan)?;
    add_covered(to, covered, plan)?;
    add_rules(alloc, to, plan.rules())?;
    add_all_lines(alloc, to, covered, plan)
}
