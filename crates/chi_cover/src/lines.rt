//! The lines of single bins.

ghost use Rattle.std.specs.Prelude.{◌≡◌, ◌++◌, None, OnOk, Some};
ghost use Rattle.chi_cover.specs.Counts.{count_in};
ghost use Rattle.chi_cover.specs.Plan.{goal_in};
ghost use Rattle.chi_cover.specs.PlanTexts.{bin_line, left_text, line_at};
ghost use Rattle.chi_cover.specs.Texts.{traffic_row};

use crate::bin::Bin;
use crate::covered::Covered;
use crate::names::{add_bin_name, add_row_name};
use crate::plan::Plan;
use chi_text::Part::{Number, Text};
use chi_text::add_parts;
use std::alloc::AllocError;

/// The row of one bin of traffic or of sequences.
#[tactic(auto, unfolding(crate::specs::Texts::traffic_row))]
pub(crate) fn add_traffic_row(
    to: &mut Vec<u8>,
    covered: &Covered,
    bin: Bin,
) -> Result<(), AllocError>
    ensures { OnOk result (to.new.items ≡ to.old.items ++ traffic_row (count_in covered.now) bin) }
{
    add_row_name(to, bin)?;
    add_parts(to, &[Text(": "), Number(covered.count(bin)), Text("\n")])
}

/// How many operations a missing bin has counted, where it has some, of how many it has to.
fn add_left(to: &mut Vec<u8>, goal: u64, count: u64) -> Result<(), AllocError>
    ensures { OnOk result (to.new.items ≡ to.old.items ++ left_text goal count) }
{
    if count == 0 {
        return Ok(());
    }
    add_parts(to, &[Text(": "), Number(count), Text(" of "), Number(goal)])
}

/// The line of a bin that is excluded, where it was met.
fn add_met(to: &mut Vec<u8>, count: u64, bin: Bin) -> Result<(), AllocError>
    ensures { OnOk result (to.new.items ≡ to.old.items ++ line_at None count bin) }
{
    if count == 0 {
        return Ok(());
    }
    add_parts(to, &[Text("excluded but met: ")])?;
    add_bin_name(to, bin)?;
    add_parts(to, &[Text(": "), Number(count), Text("\n")])
}

/// The line of a bin that has counted fewer operations than its goal.
fn add_missing(to: &mut Vec<u8>, goal: u64, count: u64, bin: Bin) -> Result<(), AllocError>
    ensures { OnOk result (to.new.items ≡ to.old.items ++ line_at (Some goal) count bin) }
{
    if count >= goal {
        return Ok(());
    }
    add_parts(to, &[Text("missing: ")])?;
    add_bin_name(to, bin)?;
    add_left(to, goal, count)?;
    add_parts(to, &[Text("\n")])
}

/// The line of a bin of which there is more to say: that it is missing, or that it was met though it is excluded.
#[tactic(auto, unfolding(crate::specs::PlanTexts::bin_line))]
pub(crate) fn add_bin_line(
    to: &mut Vec<u8>,
    covered: &Covered,
    plan: &Plan,
    bin: Bin,
) -> Result<(), AllocError>
    ensures { OnOk result (to.new.items ≡ to.old.items ++ bin_line (goal_in plan.now) (count_in covered.now) bin) }
{
    let count = covered.count(bin);
    match plan.goal_of(bin) {
        Some(goal) => add_missing(to, goal, count, bin),
        None => add_met(to, count, bin),
    }
}
