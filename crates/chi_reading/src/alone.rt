//! One granule's part of a trace.

ghost use Rattle.std.specs.Prelude.{◌≡◌, IfOk};
ghost use Rattle.chi_reading.specs.TraceText.{alone, only};

use crate::recorded::Recorded;
use chi_trace::{GranuleWord, GranuleWords, Trace, operations_of};
use std::alloc::{AllocError, Global};

/// The granule's word alone, where one is told.
fn only(alloc: Global, words: &GranuleWords, granule: u64) -> Result<GranuleWords, AllocError>
    ensures { IfOk result (λ own. own ≡ only granule words.now) }
{
    let Some(word) = words.get(granule) else {
        return Ok(GranuleWords::none(alloc));
    };
    let mut own = Vec::new(alloc);
    own.push(GranuleWord { granule, word })?;
    match GranuleWords::new(own) {
        Some(words) => Ok(words),
        None => unreachable!(),
    }
}

impl Recorded {
    /// One granule's part, over all addresses: its operations, and its words at the opening and at the end. Use it where one of
    /// many granules is looked at. The granule is named by its number, counted from address 0. No refused request is left.
    ///
    /// ```
    /// let part = recorded.alone(alloc, 0x1000 / 8)?;
    /// ```
    pub fn alone(&self, alloc: Global, granule: u64) -> Result<Recorded, AllocError>
        ensures { IfOk result (λ part. part ≡ alone granule self.now) }
    {
        let operations = operations_of(alloc, self.trace().operations(), granule)?;
        let opening = only(alloc, self.trace().opening(), granule)?;
        let final_words = only(alloc, self.final_words(), granule)?;
        match Trace::new(opening, operations) {
            Some(trace) => Ok(Recorded::of_addresses(alloc, trace, final_words)),
            None => unreachable!(),
        }
    }
}
