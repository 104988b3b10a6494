//! The operations of a trace, counted.

ghost use Rattle.std.specs.Prelude.{◌+◌, ◌<◌, OnOk, flat_map, length};
ghost use Rattle.std.specs.List.{range_with_len};
ghost use Rattle.chi_trace.specs.Explains.{IsTrace};
ghost use Rattle.chi_cover.specs.Added.{AreAdded};
ghost use Rattle.chi_cover.specs.Counts.{bins_at};
ghost use Rattle.chi_cover.specs.Last.{AreLastPlaces};
ghost use Rattle.chi_cover.specs.Open.{AreKept};

use crate::open::{OpenOperations, take};
use crate::operation::add_own;
use crate::sequence::{LastPlaces, add_sequences};
use crate::traffic::add_traffic;
use chi_trace::Operation;
use std::alloc::{AllocError, Global};
use std::collections::HashMap;

/// One more for each bin of the operation at a place, where those before it were taken.
fn add_operation(
    alloc: Global,
    counts: &mut [u64],
    ops: &[Operation],
    kept: &mut OpenOperations,
    last: &mut LastPlaces,
    place: usize,
) -> Result<(), AllocError>
    requires traced { IsTrace ops.now }
    requires place { place < length ops.now }
    requires kept { AreKept ops.now place kept.old }
    requires last { AreLastPlaces ops.now place last.old }
    ensures added { OnOk result (AreAdded (bins_at ops.now place) counts.old counts.new) }
    ensures kept { OnOk result (AreKept ops.now (place + 1) kept.new) }
    ensures last { OnOk result (AreLastPlaces ops.now (place + 1) last.new) }
{
    let before = take(alloc, ops, kept, place)?;
    add_own(counts, &ops[place]);
    add_traffic(alloc, counts, ops, &before, place)?;
    add_sequences(counts, ops, last, place)
}

/// One more for each bin of each operation of a trace.
pub(crate) fn add_operations(
    alloc: Global,
    counts: &mut [u64],
    ops: &[Operation],
) -> Result<(), AllocError>
    requires { IsTrace ops.now }
    ensures { OnOk result (AreAdded (flat_map (bins_at ops.now) (range_with_len 0 (length ops.now))) counts.old counts.new) }
{
    let mut kept = HashMap::new(alloc);
    let mut last = LastPlaces::none(alloc);
    for place in 0..ops.len() {
        add_operation(alloc, counts, ops, &mut kept, &mut last, place)?;
    }
    Ok(())
}
