//! Traces that were read.

ghost use Rattle.std.specs.Prelude.{◌≡◌, [], IfOk, None};
ghost use Rattle.chi_reading.specs.TraceText.{IsMemoryOf, IsOf, MemoryText, cut_at};

use crate::memory::Memory;
use crate::requests::Found;
use chi_fields::{Refusal, Region};
use chi_trace::{GranuleWords, Trace};
use std::alloc::{AllocError, Global};
use std::marker::Model;

/// A trace that was read: its memory is a region or all addresses. Its requests are operations, or were refused. The number of an
/// operation is its place in the text, counted from 0, or of events the line of its request, counted from 1.
#[derive(Debug, Drop)]
pub struct Recorded {
    region: Option<Region>,
    trace: Trace,
    final_words: GranuleWords,
    refusals: Vec<Refusal>,
}

impl Model for Recorded {
    ghost use Rattle.chi_reading.specs.TraceText.{RecordedValue};

    ghost Value = { RecordedValue };

    ghost view = { λ r. record { region = r.region; trace = r.trace; final_words = r.final_words; refusals = r.refusals.items } };
}

impl Recorded {
    /// A trace of all addresses, of which no request was refused, with these words at the end.
    ///
    /// ```
    /// let recorded = Recorded::of_addresses(alloc, trace, GranuleWords::none(alloc));
    /// ```
    pub fn of_addresses(alloc: Global, trace: Trace, final_words: GranuleWords) -> Recorded
        ensures { result ≡ record { region = None; trace = trace; final_words = final_words; refusals = [] } }
    {
        let refusals = Vec::new(alloc);
        Recorded {
            region: None,
            trace,
            final_words,
            refusals,
        }
    }

    /// The region; `None` where the memory is all addresses below 2^52.
    ///
    /// ```
    /// let granules = recorded.region()?.granules();
    /// ```
    pub fn region(&self) -> Option<Region>
        ensures { result ≡ self.now.region }
    {
        self.region
    }

    /// The operations that were observed, in the order of their starts, and the words at the opening.
    ///
    /// ```
    /// let verdict = explain(alloc, recorded.trace(), recorded.final_words(), 1_000_000, &mut NoProgress)?;
    /// ```
    pub fn trace(&self) -> &Trace
        ensures { result.now ≡ self.now.trace }
    {
        &self.trace
    }

    /// The words at the end, of the granules of which they are told.
    ///
    /// ```
    /// let final_word = recorded.final_words().get(0x1000 / 8);
    /// ```
    pub fn final_words(&self) -> &GranuleWords
        ensures { result.now ≡ self.now.final_words }
    {
        &self.final_words
    }

    /// Why the requests of the trace that are no operations were refused, in the order of the text.
    ///
    /// ```
    /// let has_misaligned = recorded.refusals().contains(&Refusal::Misaligned);
    /// ```
    pub fn refusals(&self) -> &[Refusal]
        ensures { result.now ≡ self.now.refusals }
    {
        self.refusals.as_slice()
    }

    /// What had happened by a time: the operations that had started, with the replies of those that had ended. The words at the
    /// end are not those of that time, so none is told. The times of refused requests are not kept, so none of them is left.
    ///
    /// ```
    /// let before = recorded.cut(alloc, 4711)?;
    /// ```
    pub fn cut(&self, alloc: Global, time: u64) -> Result<Recorded, AllocError>
        ensures { IfOk result (λ before. before ≡ cut_at time self.now) }
    {
        Ok(Recorded {
            region: self.region,
            trace: self.trace.cut(alloc, time)?,
            final_words: GranuleWords::none(alloc),
            refusals: Vec::new(alloc),
        })
    }
}

/// The trace of a memory, and of what was found of its requests.
pub(crate) fn in_order(memory: Memory, found: Found) -> Result<Recorded, AllocError>
    ensures { IfOk result (λ r. (t : MemoryText) → IsMemoryOf t memory → IsOf (record { memory = t; completed = found }) r) }
{
    let mut operations = found.operations;
    operations.sort_by_key(|op| op.start)?;
    match Trace::new(memory.opening, operations) {
        Some(trace) => Ok(Recorded {
            region: memory.region,
            trace,
            final_words: memory.final_words,
            refusals: found.refusals,
        }),
        None => unreachable!(),
    }
}
