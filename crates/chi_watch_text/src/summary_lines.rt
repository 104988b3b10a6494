//! The lines of how much was told, and of whether all is explained.

ghost use Rattle.std.specs.Prelude.{◌≡◌, ◌++◌, OnOk};
ghost use Rattle.chi_watch_text.specs.FoundGranule.{verdict_of};
ghost use Rattle.chi_watch_text.specs.Texts.{counts_text, explained_text, granules_text, outstanding_text, summary_text};

use crate::required::Required;
use crate::required_lines::add_missing;
use crate::waiting_lines::add_all_waiting;
use crate::watched::Watched;
use chi_judge::Standing;
use chi_text::{Part, add_parts};
use chi_watch::Counts;
use std::alloc::AllocError;

/// How many operations ended, and how many requests are outstanding.
fn add_outstanding(to: &mut Vec<u8>, counts: &Counts) -> Result<(), AllocError>
    ensures { OnOk result (to.new.items ≡ to.old.items ++ outstanding_text counts.now) }
{
    add_parts(
        to,
        &[
            Part::Text("  operations that ended: "),
            Part::Number(counts.ended),
            Part::Text("\n  requests outstanding: "),
            Part::Number(counts.outstanding as u64),
            Part::Text("\n"),
        ],
    )
}

/// Of how many granules was told, and how many are not judged.
fn add_granules(to: &mut Vec<u8>, counts: &Counts, unjudged: u64) -> Result<(), AllocError>
    ensures { OnOk result (to.new.items ≡ to.old.items ++ granules_text counts.now unjudged) }
{
    add_parts(
        to,
        &[
            Part::Text("  granules: "),
            Part::Number(counts.granules as u64),
            Part::Text("\n  granules not judged: "),
            Part::Number(unjudged),
            Part::Text("\n"),
        ],
    )
}

/// How much was told, and which requests are outstanding at the end.
fn add_counts(to: &mut Vec<u8>, watched: &Watched) -> Result<(), AllocError>
    ensures { OnOk result (to.new.items ≡ to.old.items ++ counts_text watched.now) }
{
    add_outstanding(to, &watched.counts)?;
    add_all_waiting(to, &watched.waiting)?;
    add_granules(to, &watched.counts, watched.unjudged)
}

/// That all is explained, where it is.
fn add_explained(to: &mut Vec<u8>, verdict: Standing) -> Result<(), AllocError>
    ensures { OnOk result (to.new.items ≡ to.old.items ++ explained_text verdict) }
{
    match verdict {
        Standing::Explained => add_parts(to, &[Part::Text("explained\n")]),
        Standing::Unexplained | Standing::Undecided => Ok(()),
    }
}

/// Whether all is explained, how much was told, and what is required and does not hold.
pub(crate) fn add_summary_lines(
    to: &mut Vec<u8>,
    watched: &Watched,
    missing: &Required,
) -> Result<(), AllocError>
    ensures { OnOk result (to.new.items ≡ to.old.items ++ summary_text watched.now missing.now) }
{
    add_explained(to, watched.verdict())?;
    add_counts(to, watched)?;
    add_missing(to, missing, watched)
}
