//! Traces: what was observed at a home, from the words at the opening on.

ghost use Rattle.std.specs.Prelude.{◌≡◌, ◌<◌, ◌↔◌, All, None, IfOk, IfSome, IsTrue, length};
ghost use Rattle.std.specs.List.{filter};
ghost use Rattle.chi_trace.specs.AtPlaces.{at_places, is_in};
ghost use Rattle.chi_trace.specs.Cuts.{cut};
ghost use Rattle.chi_trace.specs.Explains.{IsTrace};
ghost use Rattle.chi_trace.specs.Words.{AreInOrder, AreWords};

use crate::operation::Operation;
use crate::words::GranuleWords;
use chi_fields::ADDRESSES;
use chi_fields::laws::access_is_lawful;
use std::alloc::{AllocError, Global};
use std::marker::Model;

/// What was observed at a home: the words of granules at the opening, and the operations in the order of their starts. None
/// ends before it starts, and all lie within 2^52 bytes. A granule of which no word is told holds 0.
#[derive(Debug, Drop)]
pub struct Trace {
    opening: GranuleWords,
    operations: Vec<Operation>,
}

impl Model for Trace {
    ghost use Rattle.chi_trace.specs.Explains.{IsTrace};
    ghost use Rattle.chi_trace.specs.Traces.{TraceValue};

    ghost Value = { TraceValue };

    ghost view = { λ t. record { opening = t.opening; operations = t.operations.items } };

    ghost invariant = { λ t. IsTrace t.operations.items };
}

/// Whether operations are those of a trace: they stand in the order of their starts, none ends before it starts, and all lie
/// within 2^52 bytes.
///
/// ```
/// if !are_traced(&ops) {
///     ops.sort_by_key(|op| op.start)?;
/// }
/// ```
pub fn are_traced(ops: &[Operation]) -> bool
    ensures { IsTrue result ↔ IsTrace ops.now }
{
    let mut before = 0;
    for op in ops {
        access_is_lawful(&op.access);
        let length = op.access.len() as u64;
        if op.start < before || op.end < op.start || op.access.addr() > ADDRESSES - length {
            return false;
        }
        before = op.start;
    }
    true
}

/// What had happened by a time of operations in any order: those that had started, with the replies of those that had ended.
///
/// ```
/// let before = cut(alloc, &ops, 4711)?;
/// ```
pub fn cut(alloc: Global, ops: &[Operation], time: u64) -> Result<Vec<Operation>, AllocError>
    ensures { IfOk result (λ cut_off. cut_off.items ≡ cut time ops.now) }
{
    let mut cut_off = Vec::new(alloc);
    for op in ops {
        if op.start <= time {
            let mut known = *op;
            if op.end > time {
                known.reply = None;
            }
            cut_off.push(known)?;
        }
    }
    Ok(cut_off)
}

/// The operations at these places.
///
/// ```
/// let blamed = operations_at(alloc, trace.operations(), &places)?;
/// ```
pub fn operations_at(
    alloc: Global,
    ops: &[Operation],
    places: &[usize],
) -> Result<Vec<Operation>, AllocError>
    requires { All (λ place. place < length ops.now) places.now }
    ensures { IfOk result (λ own. own.items ≡ at_places ops.now places.now) }
{
    let mut own = Vec::with_capacity(alloc, places.len())?;
    for place in places {
        own.push(ops[*place])?;
    }
    Ok(own)
}

/// The operations of a granule, in the order in which they stand. The granule is named by its number, counted from address 0.
///
/// ```
/// let own = operations_of(alloc, trace.operations(), 0x1000 / 8)?;
/// ```
pub fn operations_of(
    alloc: Global,
    ops: &[Operation],
    granule: u64,
) -> Result<Vec<Operation>, AllocError>
    ensures { IfOk result (λ own. own.items ≡ filter (is_in granule) ops.now) }
{
    ops.iter()
        .copied()
        .filter(|op| op.granule() == granule)
        .collect(alloc)
}

impl Trace {
    /// The trace of these operations, from these words on; none where they are not those of a trace (`are_traced`).
    ///
    /// ```
    /// let trace = Trace::new(GranuleWords::none(alloc), ops)?;
    /// ```
    pub fn new(opening: GranuleWords, operations: Vec<Operation>) -> Option<Trace>
        ensures some { IfSome result (λ trace. trace ≡ record { opening = opening; operations = operations.items }) }
        ensures none { result ≡ None → IsTrace operations.items → ⊥ }
    {
        if !are_traced(&operations) {
            return None;
        }
        Some(Trace {
            opening,
            operations,
        })
    }

    /// The words at the opening.
    ///
    /// ```
    /// let word = trace.opening().get(granule).unwrap_or(0);
    /// ```
    pub fn opening(&self) -> &GranuleWords
        ensures words { result.now ≡ self.now.opening }
        ensures in_order { AreInOrder self.now.opening }
        ensures each { AreWords self.now.opening }
    {
        // That the words are in order is known here once they are read.
        let _words = self.opening.as_slice();
        &self.opening
    }

    /// The operations, in the order of their starts.
    ///
    /// ```
    /// let end = trace.operations()[place].end;
    /// ```
    pub fn operations(&self) -> &[Operation]
        ensures operations { result.now ≡ self.now.operations }
        ensures traced { IsTrace self.now.operations }
    {
        self.operations.as_slice()
    }

    /// What had happened by a time: the operations that had started, with the replies of those that had ended.
    ///
    /// ```
    /// let before = trace.cut(alloc, 4711)?;
    /// ```
    pub fn cut(&self, alloc: Global, time: u64) -> Result<Trace, AllocError>
        ensures { IfOk result (λ before. before ≡ record { opening = self.now.opening; operations = cut time self.now.operations }) }
    {
        let opening = self.opening.copy(alloc)?;
        let operations = cut(alloc, &self.operations, time)?;
        Ok(Trace {
            opening,
            operations,
        })
    }
}
