//! The lines of the granule that is listed first, saved in a file of their own.

ghost use Rattle.std.specs.Prelude.{◌≡◌, List, ℕ, IfErr, IfSome, IsSomeAnd, OnOk, Some};
ghost use Rattle.chi_watch_text.specs.Saved.{IsSaved};
ghost use Rattle.chi_check.specs.Saving.{AreSaved, IsFirstPut, IsUnsaved, PutsMore, first_listed};

use crate::fault::CheckFault;
use crate::options::WatchingOptions;
use crate::pages::Pages;
use crate::watch::stopped_by;
use chi_watch_text::{LineFormat, Watched, lines_of_granule};
use std::alloc::Global;

/// Of the granules that no order explains the one that is listed first.
pub(crate) fn first_listed(watched: &Watched) -> Option<u64>
    ensures { result ≡ first_listed watched.now }
{
    if let Some(found) = watched.found.first() {
        return Some(found.granule);
    }
    let ending = watched.ending.as_ref()?;
    let first = ending.unexplained.first()?;
    Some(first.granule)
}

// Puts lines at a path.
fn put_lines<G: Pages>(lines: &[u8], path: &str, pages: &mut G) -> Result<(), CheckFault>
    ensures put { OnOk result (G.has_put pages.new path.now lines.now) }
    ensures before { OnOk result ((p text : List ℕ) → G.has_put pages.old p text → G.has_put pages.new p text) }
    ensures fault { IfErr result (λ fault. fault ≡ CheckFault.Unsaved) }
{
    if pages.put(path, lines) {
        Ok(())
    } else {
        Err(CheckFault::Unsaved)
    }
}

// Puts those of some events that tell of a granule at a path.
fn put_events<G: Pages>(
    alloc: Global,
    watched: &Watched,
    lines: &[u8],
    granule: u64,
    path: &str,
    pages: &mut G,
) -> Result<(), CheckFault>
    ensures put { OnOk result ((saved : List ℕ) × IsSaved lines.now granule saved × G.has_put pages.new path.now saved) }
    ensures before { OnOk result (PutsMore G.has_put (Some granule) pages.old pages.new) }
    ensures fault { IfErr result (IsUnsaved LineFormat.Events watched.now lines.now) }
{
    match lines_of_granule(alloc, lines, granule) {
        Ok(saved) => put_lines(&saved, path, pages),
        Err(fault) => Err(stopped_by(fault, &watched.found)),
    }
}

// Puts what is saved of some lines for a granule at a path.
fn put_saved<G: Pages>(
    alloc: Global,
    format: LineFormat,
    watched: &Watched,
    lines: &[u8],
    granule: u64,
    path: &str,
    pages: &mut G,
) -> Result<(), CheckFault>
    ensures put { OnOk result ((saved : List ℕ) × AreSaved format lines.now granule saved × G.has_put pages.new path.now saved) }
    ensures before { OnOk result (PutsMore G.has_put (Some granule) pages.old pages.new) }
    ensures fault { IfErr result (IsUnsaved format watched.now lines.now) }
{
    match format {
        LineFormat::Events => put_events(alloc, watched, lines, granule, path, pages),
        LineFormat::Flits { errors: _ } | LineFormat::PointedFlits { errors: _ } => put_lines(
            lines, path, pages,
        ),
    }
}

/// Puts the lines that tell of the granule that is listed first, or all flits, at the path that was asked for, where lines were kept
/// and a granule is listed.
pub(crate) fn save_first<G: Pages>(
    alloc: Global,
    watched: &Watched,
    options: &WatchingOptions<'_>,
    pages: &mut G,
) -> Result<(), CheckFault>
    ensures put { OnOk result (IfSome options.now.save (λ p. IsFirstPut G.has_put options.now.format watched.now p.now pages.old pages.new)) }
    ensures before { OnOk result (PutsMore G.has_put (first_listed watched.now) pages.old pages.new) }
    ensures fault { IfErr result (λ fault. IsSomeAnd watched.now.kept (λ kept. IsUnsaved options.now.format watched.now kept.items fault)) }
{
    let (Some(path), Some(kept), Some(granule)) = (
        options.save,
        &watched.kept,
        first_listed(watched),
    ) else {
        return Ok(());
    };
    put_saved(alloc, options.format, watched, kept, granule, path, pages)
}
