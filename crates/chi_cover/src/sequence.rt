//! The bins of an operation and the one before it, on its granule and on its line.

ghost use Rattle.std.specs.Prelude.{◌≡◌, ◌+◌, ◌<◌, List, IfSome, OnOk, length};
ghost use Rattle.chi_trace.specs.declared.operation.Operation.{Operation};
ghost use Rattle.chi_cover.specs.Added.{AreAdded};
ghost use Rattle.chi_cover.specs.Last.{AreLastPlaces};
ghost use Rattle.chi_cover.specs.Operations.{those};
ghost use Rattle.chi_cover.specs.Sequences.{ends_before, line_of, line_sequence_from, line_sequence_of, sequence_bins_at, sequence_from, sequence_of};

use crate::adding::add_some;
use crate::alike::transaction_of;
use crate::bin::Bin;
use chi_trace::Operation;
use std::alloc::{AllocError, Global};
use std::collections::HashMap;

/// The place of the last operation of each granule, or of each line, by its number.
type Places = HashMap<u64, usize>;

/// The places of the last operations: of each granule, and of each line.
#[derive(Drop)]
pub(crate) struct LastPlaces {
    granules: Places,
    lines: Places,
}

impl LastPlaces {
    /// Those of no operation.
    pub(crate) fn none(alloc: Global) -> LastPlaces
        ensures { (trace : List Operation) → AreLastPlaces trace 0 result }
    {
        LastPlaces {
            granules: HashMap::new(alloc),
            lines: HashMap::new(alloc),
        }
    }
}

/// The number of an operation's line of 64 bytes.
fn line_of(op: &Operation) -> u64
    ensures { result ≡ line_of op.now }
{
    op.granule() / 8
}

/// Whether an operation had ended before another started.
fn ends_before(earlier: &Operation, later: &Operation) -> bool
    ensures { result ≡ ends_before earlier.now later.now }
{
    earlier.end < later.start
}

/// The bin of an operation after another of its granule.
fn sequence_of(earlier: &Operation, later: &Operation) -> Option<Bin>
    ensures { result ≡ sequence_of earlier.now later.now }
{
    if !ends_before(earlier, later) {
        return None;
    }
    Some(Bin::Sequence {
        earlier: transaction_of(earlier.access.kind()),
        later: transaction_of(later.access.kind()),
    })
}

/// The bin of an operation after another of its line, which is of another granule.
fn line_sequence_of(earlier: &Operation, later: &Operation) -> Option<Bin>
    ensures { result ≡ line_sequence_of earlier.now later.now }
{
    if !ends_before(earlier, later) || earlier.granule() == later.granule() {
        return None;
    }
    Some(Bin::LineSequence {
        earlier: transaction_of(earlier.access.kind()),
        later: transaction_of(later.access.kind()),
    })
}

/// One more for the bin of the operation at a place after the one before it on its granule.
fn add_sequence(counts: &mut [u64], ops: &[Operation], before: Option<usize>, place: usize)
    requires place { place < length ops.now }
    requires before { IfSome before (λ j. j < length ops.now) }
    ensures { AreAdded (those (sequence_from ops.now place before)) counts.old counts.new }
{
    if let Some(before) = before {
        add_some(counts, sequence_of(&ops[before], &ops[place]));
    }
}

/// One more for the bin of the operation at a place after the one before it on its line.
fn add_line_sequence(counts: &mut [u64], ops: &[Operation], before: Option<usize>, place: usize)
    requires place { place < length ops.now }
    requires before { IfSome before (λ j. j < length ops.now) }
    ensures { AreAdded (those (line_sequence_from ops.now place before)) counts.old counts.new }
{
    if let Some(before) = before {
        add_some(counts, line_sequence_of(&ops[before], &ops[place]));
    }
}

/// One more for each bin of the operation at a place after those before it, of which the last ones are known.
pub(crate) fn add_sequences(
    counts: &mut [u64],
    ops: &[Operation],
    last: &mut LastPlaces,
    place: usize,
) -> Result<(), AllocError>
    requires place { place < length ops.now }
    requires last { AreLastPlaces ops.now place last.old }
    ensures added { OnOk result (AreAdded (sequence_bins_at ops.now place) counts.old counts.new) }
    ensures last { OnOk result (AreLastPlaces ops.now (place + 1) last.new) }
{
    let op = &ops[place];
    let on_granule = last.granules.insert(op.granule(), place)?;
    let on_line = last.lines.insert(line_of(op), place)?;
    add_sequence(counts, ops, on_granule, place);
    add_line_sequence(counts, ops, on_line, place);
    Ok(())
}
