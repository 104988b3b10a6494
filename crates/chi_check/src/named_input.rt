//! The input of a task: the file that it names, or the standard input.

ghost use Rattle.std.specs.Prelude.{IfOk, IfSome};
ghost use Rattle.chi_check.specs.Check.{KeepsUnanswered, Outcome};
ghost use Rattle.chi_check.specs.CheckStatus.{IsAnswerStatus};
ghost use Rattle.chi_check.specs.ProgramOutcome.{by_file};
ghost use Rattle.chi_check.specs.Watch.{WatchOutcome, watching};
ghost use Rattle.chi_search.specs.Looks.{IsCutShort};

use crate::check::check;
use crate::fault::{CheckFault, SourceFault};
use crate::meter::Meter;
use crate::options::{CheckOptions, WatchingOptions};
use crate::pages::Pages;
use crate::sources::Sources;
use crate::watch::watch;
use chi_watch_text::{LinesFault, WatchProgress};
use std::alloc::Global;
use std::io::{Read, Write};

/// Explains the trace of the file at a path, where one is named, and else of the standard input.
pub(crate) fn explain_input<R: Read, W: Write, P: WatchProgress, G: Pages + Sources + Meter>(
    alloc: Global,
    file: Option<&str>,
    from: &mut R,
    to: &mut W,
    options: &CheckOptions<'_>,
    progress: &mut P,
    machine: &mut G,
) -> Result<u8, CheckFault>
    ensures outcome { IfSome (by_file (G.given machine.old) file.entry (R.remaining from.old)) (λ input. Outcome (IsCutShort P.states P.looked progress.new) options.now input (W.contents to.old) (W.contents to.new) result) }
    ensures unanswered { KeepsUnanswered (W.contents to.old) (W.contents to.new) result }
    ensures status { IfOk result IsAnswerStatus }
{
    let Some(path) = file else {
        return check(alloc, from, to, options, progress, machine);
    };
    match machine.open_file(path) {
        Some(mut opened) => check(alloc, &mut opened, to, options, progress, machine),
        None => Err(CheckFault::Input(SourceFault::Read)),
    }
}

/// Watches the events of the file at a path, where one is named, and else of the standard input.
pub(crate) fn watch_input<R: Read, W: Write, P: WatchProgress, G: Pages + Sources + Meter>(
    alloc: Global,
    file: Option<&str>,
    from: &mut R,
    to: &mut W,
    options: &WatchingOptions<'_>,
    progress: &mut P,
    machine: &mut G,
) -> Result<u8, CheckFault>
    ensures outcome { IfSome (by_file (G.given machine.old) file.entry (R.remaining from.old)) (λ input. WatchOutcome (watching options.now) input (W.contents to.old) (W.contents to.new) result) }
    ensures unanswered { KeepsUnanswered (W.contents to.old) (W.contents to.new) result }
    ensures status { IfOk result IsAnswerStatus }
{
    let Some(path) = file else {
        return watch(alloc, from, to, options, progress, machine);
    };
    match machine.open_file(path) {
        Some(mut opened) => watch(alloc, &mut opened, to, options, progress, machine),
        None => Err(CheckFault::Input(SourceFault::Events(LinesFault::Read))),
    }
}
