//! Granules that became quiet, or had stopped being explained, and that no order explains by what is told up to then.

ghost use Rattle.std.specs.Prelude.{◌≡◌, ◌==◌, ◌≢◌, ◌⊎◌, ◌++◌, [], ◌∷◌, true, false, All, not, filter, IfErr, IfOk};
ghost use Rattle.std.specs.List.{AllPairs};
ghost use Rattle.chi_search.specs.Looks.{Grew, for_verdict};
ghost use Rattle.chi_watch_text.specs.FoundGranule.{with_quiet};
ghost use Rattle.chi_watch_text.specs.Outcomes.{AreReachedBy, IsSettled, IsStillFound};
ghost use Rattle.chi_watch_text.specs.Telling.{AreAllTold, AreSomeTold};
ghost use Rattle.chi_watch_text.specs.Written.{found_text};

use crate::fault::LinesFault;
use crate::options::WatchOptions;
use crate::progress::WatchProgress;
use crate::telling::tell;
use crate::watched::{FoundGranule, is_found};
use crate::written::found_text;
use chi_watch::Watch;
use std::alloc::{AllocError, Global};
use std::io::Write;

/// A granule that became quiet, or had stopped being explained, and that no order explains by what was told then, by its number;
/// and the line by which that was seen.
#[derive(Clone, Copy)]
pub struct Quiet {
    pub(crate) granule: u64,
    pub(crate) line: u64,
}

/// All but this granule.
fn without(alloc: Global, quiet: &[Quiet], granule: u64) -> Result<Vec<Quiet>, AllocError>
    ensures { IfOk result (λ others. others.items ≡ filter (λ q. not (q.granule == granule)) quiet.now) }
{
    quiet
        .iter()
        .copied()
        .filter(|it| it.granule != granule)
        .collect(alloc)
}

/// Notes the granule that was seen by a line, if one was.
pub(crate) fn note_quiet(
    alloc: Global,
    quiet: &mut Vec<Quiet>,
    seen: Option<u64>,
    line: u64,
) -> Result<(), AllocError>
    ensures { IfOk result (λ _. quiet.new.items ≡ with_quiet seen line quiet.old.items) }
{
    let Some(granule) = seen else {
        return Ok(());
    };
    let mut others = without(alloc, quiet, granule)?;
    others.push(Quiet { granule, line })?;
    *quiet = others;
    Ok(())
}

/// Adds a granule to those that were found.
fn add(found: &mut Vec<FoundGranule>, noted: FoundGranule) -> Result<(), AllocError>
    ensures added { IfOk result (λ _. found.new.items ≡ found.old.items ++ noted ∷ []) }
    ensures kept { IfErr result (λ _. found.new.items ≡ found.old.items) }
{
    found.push(noted)?;
    Ok(())
}

/// Notes and tells a granule, where it is still seen to be unexplained and was not noted before.
fn judge_one<W: Write, P: WatchProgress>(
    alloc: Global,
    watch: &Watch,
    it: Quiet,
    found: &mut Vec<FoundGranule>,
    to: &mut W,
    options: &WatchOptions,
    progress: &mut P,
) -> Result<(), LinesFault>
    ensures told { IfOk result (λ _. AreAllTold (found_text options.now.answer) found.old.items found.new.items (W.contents to.old) (W.contents to.new)) }
    ensures kept { IfErr result (λ fault. fault ≢ LinesFault.Write → AreAllTold (found_text options.now.answer) found.old.items found.new.items (W.contents to.old) (W.contents to.new)) }
    ensures begun { AreSomeTold (found_text options.now.answer) found.old.items found.new.items (W.contents to.old) (W.contents to.new) }
    ensures fault { IfErr result (λ fault. (fault ≡ LinesFault.Memory) ⊎ (fault ≡ LinesFault.Write)) }
    ensures noted { IsSettled watch.now it found.old.items found.new.items }
    ensures reached { IfOk result (λ _. AreReachedBy watch.now (P.looked for_verdict) progress.old progress.new options.now.budget found.old.items found.new.items) }
    ensures looked { IfOk result (λ _. Grew (P.looked for_verdict) progress.old progress.new) }
{
    if is_found(found, it.granule) {
        return Ok(());
    }
    if watch.is_unexplained(alloc, it.granule, options.budget, progress)? {
        let so_far = watch.reach(alloc, it.granule, options.budget, progress)?;
        let noted = FoundGranule {
            granule: it.granule,
            line: it.line,
            reach: so_far.reach,
            cut_short: so_far.cut_short,
        };
        let text = found_text(alloc, options.answer, &noted)?;
        add(found, noted)?;
        tell(to, &text, progress)?;
    }
    Ok(())
}

/// Notes and tells those that are still seen to be unexplained.
fn judge_each<W: Write, P: WatchProgress>(
    alloc: Global,
    watch: &Watch,
    quiet: &[Quiet],
    found: &mut Vec<FoundGranule>,
    to: &mut W,
    options: &WatchOptions,
    progress: &mut P,
) -> Result<(), LinesFault>
    ensures told { IfOk result (λ _. AreAllTold (found_text options.now.answer) found.old.items found.new.items (W.contents to.old) (W.contents to.new)) }
    ensures kept { IfErr result (λ fault. fault ≢ LinesFault.Write → AreAllTold (found_text options.now.answer) found.old.items found.new.items (W.contents to.old) (W.contents to.new)) }
    ensures begun { AreSomeTold (found_text options.now.answer) found.old.items found.new.items (W.contents to.old) (W.contents to.new) }
    ensures fault { IfErr result (λ fault. (fault ≡ LinesFault.Memory) ⊎ (fault ≡ LinesFault.Write)) }
    ensures each { All (IsStillFound watch.now quiet.now found.old.items) found.new.items }
    ensures reached { IfOk result (λ _. AreReachedBy watch.now (P.looked for_verdict) progress.old progress.new options.now.budget found.old.items found.new.items) }
    ensures once { IfOk result (λ _. AllPairs (λ a b. a.granule ≢ b.granule) found.old.items → AllPairs (λ a b. a.granule ≢ b.granule) found.new.items) }
    ensures looked { IfOk result (λ _. Grew (P.looked for_verdict) progress.old progress.new) }
{
    for it in quiet {
        judge_one(alloc, watch, *it, found, to, options, progress)?;
    }
    Ok(())
}

/// Notes and tells those that are still seen to be unexplained, where all events of their time are told.
pub(crate) fn judge_quiet<W: Write, P: WatchProgress>(
    alloc: Global,
    watch: &Watch,
    is_past: bool,
    quiet: &mut Vec<Quiet>,
    found: &mut Vec<FoundGranule>,
    to: &mut W,
    options: &WatchOptions,
    progress: &mut P,
) -> Result<(), LinesFault>
    ensures told { IfOk result (λ _. AreAllTold (found_text options.now.answer) found.old.items found.new.items (W.contents to.old) (W.contents to.new)) }
    ensures kept { IfErr result (λ fault. fault ≢ LinesFault.Write → AreAllTold (found_text options.now.answer) found.old.items found.new.items (W.contents to.old) (W.contents to.new)) }
    ensures begun { AreSomeTold (found_text options.now.answer) found.old.items found.new.items (W.contents to.old) (W.contents to.new) }
    ensures fault { IfErr result (λ fault. (fault ≡ LinesFault.Memory) ⊎ (fault ≡ LinesFault.Write)) }
    ensures waits { is_past ≡ false → (found.new.items ≡ found.old.items) × (quiet.new.items ≡ quiet.old.items) }
    ensures cleared { IfOk result (λ _. is_past ≡ true → quiet.new.items ≡ []) }
    ensures each { is_past ≡ true → All (IsStillFound watch.now quiet.old.items found.old.items) found.new.items }
    ensures reached { IfOk result (λ _. AreReachedBy watch.now (P.looked for_verdict) progress.old progress.new options.now.budget found.old.items found.new.items) }
    ensures once { IfOk result (λ _. AllPairs (λ a b. a.granule ≢ b.granule) found.old.items → AllPairs (λ a b. a.granule ≢ b.granule) found.new.items) }
    ensures looked { IfOk result (λ _. Grew (P.looked for_verdict) progress.old progress.new) }
{
    if !is_past {
        return Ok(());
    }
    judge_each(alloc, watch, quiet, found, to, options, progress)?;
    quiet.clear();
    Ok(())
}
