//! What is kept of the operations of a granule: no more than the bins of traffic tell apart.

ghost use Rattle.std.specs.Prelude.{◌≡◌, ◌+◌, ◌∷◌, ◌++◌, [], ◌<◌, ◌≤◌, All, IfOk, OnOk, length, nat_le, not, slice_index, vec_len};
ghost use Rattle.std.specs.List.{filter};
ghost use Rattle.chi_trace.specs.Explains.{at};
ghost use Rattle.chi_cover.specs.Open.{AreLatest, AreLatestEnds, AreUnlike, ended_after, outlasts};

use crate::alike::{is_outlasted, outlasts};
use chi_trace::Operation;
use std::alloc::{AllocError, Global};

/// How many ends are kept: with the operation that starts, more operations are open than the bins tell apart.
const ENDS: usize = 8;

/// What is kept of a granule's operations: the latest of their ends, and of those that are alike the place of the last to end.
#[derive(Drop)]
pub(crate) struct Kept {
    pub ends: Vec<u64>,
    pub places: Vec<usize>,
}

/// The place of the least of these ends.
fn least(ends: &[u64]) -> usize
    requires { 0 < length ends.now }
    ensures within { result < length ends.now }
    ensures least { All (λ end. slice_index ends.now result ≤ end) ends.now }
{
    let mut least = 0;
    for (place, end) in ends.iter().enumerate() {
        if *end < ends[least] {
            least = place;
        }
    }
    least
}

/// Adds an end, where the latest are kept.
fn add_end(ends: &mut Vec<u64>, end: u64) -> Result<(), AllocError>
    requires { vec_len ends.old ≤ 8 }
    ensures { OnOk result (AreLatestEnds (ends.old.items ++ end ∷ []) ends.new.items) }
{
    ends.push(end)?;
    if ends.len() > ENDS {
        let place = least(ends);
        ends.remove(place);
    }
    Ok(())
}

/// Those of these ends that are not before a time.
fn ends_from(alloc: Global, ends: &[u64], time: u64) -> Result<Vec<u64>, AllocError>
    ensures { IfOk result (λ left. left.items ≡ filter (nat_le time) ends.now) }
{
    let mut left = Vec::new(alloc);
    for end in ends {
        if time <= *end {
            left.push(*end)?;
        }
    }
    Ok(left)
}

/// Those of these places whose operations had not ended before a time.
fn places_from(
    alloc: Global,
    ops: &[Operation],
    places: &[usize],
    time: u64,
) -> Result<Vec<usize>, AllocError>
    requires { All (λ j. j < length ops.now) places.now }
    ensures { IfOk result (λ left. left.items ≡ ended_after ops.now time places.now) }
{
    let mut left = Vec::new(alloc);
    for place in places {
        if ops[*place].end >= time {
            left.push(*place)?;
        }
    }
    Ok(left)
}

/// Those of these places whose operations are not alike to one that ends no earlier.
fn others(
    alloc: Global,
    ops: &[Operation],
    places: &[usize],
    op: &Operation,
) -> Result<Vec<usize>, AllocError>
    requires { All (λ j. j < length ops.now) places.now }
    ensures { IfOk result (λ others. others.items ≡ filter (λ j. not (outlasts op.now (at ops.now j))) places.now) }
{
    let mut others = Vec::new(alloc);
    for place in places {
        if !outlasts(op, &ops[*place]) {
            others.push(*place)?;
        }
    }
    Ok(others)
}

/// These places and one more, where of those whose operations are alike the one is kept that ends last.
fn with_place(
    alloc: Global,
    ops: &[Operation],
    places: &[usize],
    place: usize,
) -> Result<Vec<usize>, AllocError>
    requires place { place < length ops.now }
    requires places { All (λ j. j < place) places.now }
    requires unlike { AreUnlike ops.now places.now }
    ensures places { IfOk result (λ kept. All (λ j. j < place + 1) kept.items) }
    ensures latest { IfOk result (λ kept. AreLatest ops.now (places.now ++ place ∷ []) kept.items) }
{
    let op = &ops[place];
    let mut kept = others(alloc, ops, places, op)?;
    if !is_outlasted(ops, &kept, op) {
        kept.push(place)?;
    }
    Ok(kept)
}

impl Kept {
    /// What is kept of no operation.
    pub(crate) fn none(alloc: Global) -> Kept
        ensures ends { result.ends.items ≡ [] }
        ensures places { result.places.items ≡ [] }
    {
        Kept {
            ends: Vec::new(alloc),
            places: Vec::new(alloc),
        }
    }

    /// What is left of it at a time: what is kept of the operations that had not ended before.
    pub(crate) fn left(
        &self,
        alloc: Global,
        ops: &[Operation],
        time: u64,
    ) -> Result<Kept, AllocError>
        requires { All (λ j. j < length ops.now) self.now.places.items }
        ensures ends { IfOk result (λ left. left.ends.items ≡ filter (nat_le time) self.now.ends.items) }
        ensures places { IfOk result (λ left. left.places.items ≡ ended_after ops.now time self.now.places.items) }
    {
        Ok(Kept {
            ends: ends_from(alloc, &self.ends, time)?,
            places: places_from(alloc, ops, &self.places, time)?,
        })
    }

    /// What is kept with the operation at a place.
    pub(crate) fn with(
        &self,
        alloc: Global,
        ops: &[Operation],
        place: usize,
    ) -> Result<Kept, AllocError>
        requires place { place < length ops.now }
        requires places { All (λ j. j < place) self.now.places.items }
        requires unlike { AreUnlike ops.now self.now.places.items }
        requires few { vec_len self.now.ends ≤ 8 }
        ensures ends { IfOk result (λ kept. AreLatestEnds (self.now.ends.items ++ (at ops.now place).end ∷ []) kept.ends.items) }
        ensures places { IfOk result (λ kept. All (λ j. j < place + 1) kept.places.items) }
        ensures latest { IfOk result (λ kept. AreLatest ops.now (self.now.places.items ++ place ∷ []) kept.places.items) }
    {
        let mut ends = Vec::from_slice(alloc, &self.ends)?;
        add_end(&mut ends, ops[place].end)?;
        Ok(Kept {
            ends,
            places: with_place(alloc, ops, &self.places, place)?,
        })
    }
}
