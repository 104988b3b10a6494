//! From the bytes of an input to the trace that it tells.

ghost use Rattle.std.specs.Prelude.{None, Some, IfErr, IfOk};
ghost use Rattle.chi_check.specs.Check.{HasTrace, HasNoTrace};

use crate::fault::SourceFault;
use chi_reading::{Recorded, read_trace};
use chi_watch_text::{LineFormat, read_events};
use std::alloc::Global;

// The trace that a text is.
fn trace_of_text(alloc: Global, input: &[u8]) -> Result<Recorded, SourceFault>
    ensures trace { IfOk result (HasTrace None input.now) }
    ensures fault { IfErr result (HasNoTrace None input.now) }
{
    match read_trace(alloc, input) {
        Ok(recorded) => Ok(recorded),
        Err(fault) => Err(SourceFault::Trace(fault)),
    }
}

// The trace of the events that lines tell.
fn trace_of_lines(alloc: Global, input: &[u8], format: LineFormat) -> Result<Recorded, SourceFault>
    ensures trace { IfOk result (HasTrace (Some format) input.now) }
    ensures fault { IfErr result (HasNoTrace (Some format) input.now) }
{
    let mut lines = input;
    match read_events(alloc, &mut lines, format) {
        Ok(recorded) => Ok(recorded),
        Err(fault) => Err(SourceFault::Events(fault)),
    }
}

/// The trace that an input tells: by its text, or with `lines` by what its lines tell.
pub(crate) fn trace_told(
    alloc: Global,
    input: &[u8],
    lines: Option<LineFormat>,
) -> Result<Recorded, SourceFault>
    ensures trace { IfOk result (HasTrace lines input.now) }
    ensures fault { IfErr result (HasNoTrace lines input.now) }
{
    match lines {
        Some(format) => trace_of_lines(alloc, input, format),
        None => trace_of_text(alloc, input),
    }
}
