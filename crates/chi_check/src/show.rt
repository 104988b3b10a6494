//! The page of the granule that is listed first, put in a file of its own.

ghost use Rattle.std.specs.Prelude.{◌≡◌, List, ℕ, IfErr, IfOk, IfSome, OnOk, Some};
ghost use Rattle.chi_search.specs.Looks.{Grew};
ghost use Rattle.chi_check.specs.Saving.{PutsMore, first_listed};
ghost use Rattle.chi_check.specs.Showing.{IsFirstShown, IsPageOf, IsUnshown, page_options};

use crate::check::reported;
use crate::fault::CheckFault;
use crate::meter::Meter;
use crate::options::{CheckOptions, WatchingOptions};
use crate::pages::Pages;
use crate::save::first_listed;
use crate::watch::stopped_by;
use chi_answer::AnswerFormat;
use chi_watch_text::{LinesFault, WatchProgress, Watched, read_events};
use std::alloc::Global;

// How the page of a granule is made: as a check of the lines makes it that is asked for this granule alone.
fn page_options<'a>(options: &WatchingOptions<'a>, granule: u64) -> CheckOptions<'a>
    ensures { result ≡ page_options options.now granule }
{
    CheckOptions {
        lines: Some(options.format),
        witness: false,
        format: AnswerFormat::Text,
        budget: options.budget,
        seconds: None,
        memory: None,
        granule: Some(granule.wrapping_mul(8)),
        until: None,
        around: options.around,
        html: options.html,
    }
}

// The page of a granule that a check of some lines makes.
fn page_of<P: WatchProgress, M: Meter>(
    alloc: Global,
    watched: &Watched,
    lines: &[u8],
    granule: u64,
    options: &WatchingOptions<'_>,
    progress: &mut P,
    meter: &M,
) -> Result<Vec<u8>, CheckFault>
    ensures page { IfOk result (λ page. IfSome options.now.html (λ _. IsPageOf (page_options options.now granule) lines.now page.items)) }
    ensures looked { IfOk result (λ _. Grew P.states progress.old progress.new) }
    ensures fault { IfErr result (IsUnshown watched.now) }
{
    let mut reader = lines;
    // A watch took these lines, so they are refused for want of memory alone.
    let Ok(recorded) = read_events(alloc, &mut reader, options.format) else {
        return Err(stopped_by(LinesFault::Memory, &watched.found));
    };
    let how = page_options(options, granule);
    match reported(alloc, recorded, &how, progress, meter) {
        Ok(report) => Ok(report.page),
        Err(_) => Err(stopped_by(LinesFault::Memory, &watched.found)),
    }
}

// Puts the page of a granule that a check of some lines makes at a path.
fn put_shown<P: WatchProgress, G: Pages + Meter>(
    alloc: Global,
    watched: &Watched,
    lines: &[u8],
    granule: u64,
    path: &str,
    options: &WatchingOptions<'_>,
    progress: &mut P,
    machine: &mut G,
) -> Result<(), CheckFault>
    ensures put { OnOk result (IfSome options.now.html (λ _. (page : List ℕ) × IsPageOf (page_options options.now granule) lines.now page × G.has_put machine.new path.now page)) }
    ensures before { OnOk result (PutsMore G.has_put (Some granule) machine.old machine.new) }
    ensures looked { OnOk result (Grew P.states progress.old progress.new) }
    ensures fault { IfErr result (IsUnshown watched.now) }
{
    let page = page_of(alloc, watched, lines, granule, options, progress, machine)?;
    if machine.put(path, &page) {
        Ok(())
    } else {
        Err(CheckFault::Unshown)
    }
}

/// Puts the page of the granule that is listed first, where one is asked for, lines were kept and a granule is listed.
pub(crate) fn show_first<P: WatchProgress, G: Pages + Meter>(
    alloc: Global,
    watched: &Watched,
    options: &WatchingOptions<'_>,
    progress: &mut P,
    machine: &mut G,
) -> Result<(), CheckFault>
    ensures put { OnOk result (IfSome options.now.html (λ p. IsFirstShown G.has_put options.now watched.now p.now machine.old machine.new)) }
    ensures before { OnOk result (PutsMore G.has_put (first_listed watched.now) machine.old machine.new) }
    ensures looked { OnOk result (Grew P.states progress.old progress.new) }
    ensures fault { IfErr result (IsUnshown watched.now) }
{
    let (Some(path), Some(kept), Some(granule)) = (
        options.html,
        &watched.kept,
        first_listed(watched),
    ) else {
        return Ok(());
    };
    put_shown(
        alloc, watched, kept, granule, path, options, progress, machine,
    )
}
