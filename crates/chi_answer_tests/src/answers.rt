//! The text of the answer of a trace's text.

use chi_answer::{answer_of, answer_text};
use chi_reading::read_trace;
use chi_search::NoProgress;
use std::alloc::Global;
use std::test::Fail;

/// The text of the answer within so many states.
pub(crate) fn text(alloc: Global, trace: &str, budget: u64, witness: bool) -> Result<String, Fail> {
    let recorded = read_trace(alloc, trace.as_bytes())?;
    let answer = answer_of(alloc, &recorded, 16, budget, &mut NoProgress)?;
    let text = answer_text(alloc, &recorded, &answer, witness)?;
    Ok(String::from_utf8(text)?)
}
