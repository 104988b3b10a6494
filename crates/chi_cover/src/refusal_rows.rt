//! How many requests were refused for each reason, as a text.

ghost use Rattle.std.specs.Prelude.{◌≡◌, ◌++◌, OnOk, flat_map};
ghost use Rattle.chi_fields.specs.Refusals.{all_refusals};
ghost use Rattle.chi_cover.specs.Refusals.{missing_refusal, reasons_met, refusal_row, refusals_head, refusals_text, refused_in};

use crate::refusals::Refusals;
use chi_fields::{Refusal, refusal_name};
use chi_text::Part::{Number, Text};
use chi_text::add_parts;
use std::alloc::AllocError;

/// How many of these reasons there were.
fn reasons_met(refusals: &Refusals, reasons: &[Refusal]) -> usize
    ensures { result ≡ reasons_met (refused_in refusals.now) reasons.now }
{
    let mut count = 0;
    for reason in reasons {
        if refusals.count(*reason) > 0 {
            count += 1;
        }
    }
    count
}

/// How many reasons there were, of how many.
#[tactic(auto, unfolding(crate::specs::Refusals::refusals_head))]
fn add_head(to: &mut Vec<u8>, refusals: &Refusals) -> Result<(), AllocError>
    ensures { OnOk result (to.new.items ≡ to.old.items ++ refusals_head (refused_in refusals.now)) }
{
    add_parts(
        to,
        &[
            Text("refusals: "),
            Number(reasons_met(refusals, &Refusal::ALL) as u64),
            Text(" of "),
            Number(Refusal::ALL.len() as u64),
            Text("\n"),
        ],
    )
}

/// How many requests were refused for a reason.
#[tactic(auto, unfolding(crate::specs::Refusals::refusal_row))]
fn add_row(to: &mut Vec<u8>, refusals: &Refusals, reason: Refusal) -> Result<(), AllocError>
    ensures { OnOk result (to.new.items ≡ to.old.items ++ refusal_row (refused_in refusals.now) reason) }
{
    add_parts(
        to,
        &[
            Text(refusal_name(reason)),
            Text(": "),
            Number(refusals.count(reason)),
            Text("\n"),
        ],
    )
}

/// The line of a reason for which none was refused.
#[tactic(auto, unfolding(crate::specs::Refusals::missing_refusal))]
fn add_missing(to: &mut Vec<u8>, refusals: &Refusals, reason: Refusal) -> Result<(), AllocError>
    ensures { OnOk result (to.new.items ≡ to.old.items ++ missing_refusal (refused_in refusals.now) reason) }
{
    if refusals.count(reason) != 0 {
        return Ok(());
    }
    add_parts(
        to,
        &[Text("missing: "), Text(refusal_name(reason)), Text("\n")],
    )
}

fn add_all_rows(to: &mut Vec<u8>, refusals: &Refusals) -> Result<(), AllocError>
    ensures { OnOk result (to.new.items ≡ to.old.items ++ flat_map (refusal_row (refused_in refusals.now)) all_refusals) }
{
    for reason in Refusal::ALL {
        add_row(to, refusals, reason)?;
    }
    Ok(())
}

fn add_all_missing(to: &mut Vec<u8>, refusals: &Refusals) -> Result<(), AllocError>
    ensures { OnOk result (to.new.items ≡ to.old.items ++ flat_map (missing_refusal (refused_in refusals.now)) all_refusals) }
{
    for reason in Refusal::ALL {
        add_missing(to, refusals, reason)?;
    }
    Ok(())
}

/// Adds to a text how many reasons there were for which requests were refused, the count of each reason, and a line for each
/// that there was not.
///
/// ```
/// add_table(alloc, &mut text, &covered)?;
/// add_refusals(&mut text, &refusals)?;
/// ```
#[tactic(auto, unfolding(crate::specs::Refusals::refusals_text))]
pub fn add_refusals(to: &mut Vec<u8>, refusals: &Refusals) -> Result<(), AllocError>
    ensures { OnOk result (to.new.items ≡ to.old.items ++ refusals_text (refused_in refusals.now)) }
{
    add_head(to, refusals)?;
    add_all_rows(to, refusals)?;
    add_all_missing(to, refusals)
}
