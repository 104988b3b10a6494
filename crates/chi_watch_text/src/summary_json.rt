//! How much was told, and whether all is explained, as JSON.

ghost use Rattle.std.specs.Prelude.{◌≡◌, ◌+◌, ◌++◌, ◌<◌, Bool, OnOk, length, slice_get};
ghost use Rattle.chi_watch_text.specs.Summaries.{counts_members, granules_members, missing_json, summary_json, truth_json, waiting_at, waiting_json, waiting_list};

use crate::required::Required;
use crate::waiting::Waiting;
use crate::waiting_lines::waits_name;
use crate::watched::Watched;
use chi_page::{add_between, add_finding, add_request_members};
use chi_text::Part::{Number, Text};
use chi_text::add_parts;
use chi_watch::Counts;
use std::alloc::AllocError;

/// An outstanding request.
#[tactic(auto, unfolding(crate::specs::Summaries::waiting_json))]
fn add_waiting(to: &mut Vec<u8>, waiting: &Waiting) -> Result<(), AllocError>
    ensures { OnOk result (to.new.items ≡ to.old.items ++ waiting_json waiting.now) }
{
    add_parts(to, &[Text("{")])?;
    add_request_members(to, &waiting.fields)?;
    add_parts(
        to,
        &[
            Text(",\"start\":\""),
            Number(waiting.since),
            Text("\",\"waits_for\":\""),
            Text(waits_name(waiting.waits_for)),
            Text("\"}"),
        ],
    )
}

/// The outstanding request at a place of a list.
fn add_waiting_at(to: &mut Vec<u8>, waiting: &[Waiting], at: usize) -> Result<(), AllocError>
    requires { at < length waiting.now }
    ensures { OnOk result (to.new.items ≡ to.old.items ++ waiting_at (slice_get waiting.now at)) }
{
    add_waiting(to, &waiting[at])
}

/// Outstanding requests, one after the other.
fn add_all_waiting(to: &mut Vec<u8>, waiting: &[Waiting]) -> Result<(), AllocError>
    ensures { OnOk result (to.new.items ≡ to.old.items ++ waiting_list waiting.now) }
{
    for number in 0..waiting.len() {
        add_between(to, ",", number)?;
        add_waiting_at(to, waiting, number)?;
    }
    Ok(())
}

/// How many operations ended, and which requests are outstanding.
#[tactic(auto, unfolding(crate::specs::Summaries::counts_members))]
fn add_counts(to: &mut Vec<u8>, counts: &Counts, waiting: &[Waiting]) -> Result<(), AllocError>
    ensures { OnOk result (to.new.items ≡ to.old.items ++ counts_members counts.now waiting.now) }
{
    add_parts(
        to,
        &[
            Text(",\"operations\":\""),
            Number(counts.ended),
            Text("\",\"outstanding\":\""),
            Number(counts.outstanding as u64),
            Text("\",\"waiting\":["),
        ],
    )?;
    add_all_waiting(to, waiting)?;
    add_parts(to, &[Text("]")])
}

/// Of how many granules was told, and how many are not judged.
#[tactic(auto, unfolding(crate::specs::Summaries::granules_members))]
fn add_granules(to: &mut Vec<u8>, counts: &Counts, unjudged: u64) -> Result<(), AllocError>
    ensures { OnOk result (to.new.items ≡ to.old.items ++ granules_members counts.now unjudged) }
{
    add_parts(
        to,
        &[
            Text(",\"granules\":\""),
            Number(counts.granules as u64),
            Text("\",\"not_judged\":\""),
            Number(unjudged),
            Text("\""),
        ],
    )
}

/// Whether something is so.
#[tactic(auto, unfolding(crate::specs::Summaries::truth_json))]
fn truth(is: bool) -> &'static str
    ensures { result.now ≡ truth_json is }
{
    if is { "true" } else { "false" }
}

/// What is required and does not hold.
#[tactic(auto, unfolding(crate::specs::Summaries::missing_json))]
fn add_missing(to: &mut Vec<u8>, missing: &Required) -> Result<(), AllocError>
    ensures { OnOk result (to.new.items ≡ to.old.items ++ missing_json missing.now) }
{
    add_parts(
        to,
        &[
            Text("{\"end\":"),
            Text(truth(missing.end)),
            Text(",\"operations\":"),
            Text(truth(missing.operations > 0)),
            Text(",\"quiet\":"),
            Text(truth(missing.quiet)),
            Text(",\"judged\":"),
            Text(truth(missing.judged)),
            Text("}"),
        ],
    )
}

/// Whether all is explained, how much was told, and what is required and does not hold, as an object on one line.
#[tactic(auto, unfolding(crate::specs::Summaries::summary_json))]
pub(crate) fn add_summary_json(
    to: &mut Vec<u8>,
    watched: &Watched,
    missing: &Required,
) -> Result<(), AllocError>
    ensures { OnOk result (to.new.items ≡ to.old.items ++ summary_json watched.now missing.now) }
{
    add_parts(to, &[Text("{\"answer\":")])?;
    add_finding(to, watched.verdict())?;
    add_counts(to, &watched.counts, &watched.waiting)?;
    add_granules(to, &watched.counts, watched.unjudged)?;
    add_parts(to, &[Text(",\"missing\":")])?;
    add_missing(to, missing)?;
    add_parts(to, &[Text("}\n")])
}
