//! The places of a trace, sorted by granules and, in each, by ends.

ghost use Rattle.std.specs.Prelude.{IfOk};
ghost use Rattle.chi_trace.specs.Explains.{is_place};
ghost use Rattle.chi_trace.specs.Granules.{is_of};
ghost use Rattle.chi_verdict.specs.Groups.{IsGrouped};

use chi_trace::Operation;
use std::alloc::{AllocError, Global};

/// The place of an operation, with the granule and the end by which it is sorted.
#[derive(Clone, Copy)]
pub(crate) struct Placed {
    pub granule: u64,
    pub end: u64,
    pub place: usize,
}

/// All places, sorted by granules and, in each, by ends.
pub(crate) fn by_granule(alloc: Global, ops: &[Operation]) -> Result<Vec<Placed>, AllocError>
    ensures { IfOk result (λ places. IsGrouped ops.now (is_place ops.now) places.items) }
{
    let mut places = Vec::with_capacity(alloc, ops.len())?;
    for place in 0..ops.len() {
        let op = &ops[place];
        places.push(Placed {
            granule: op.granule(),
            end: op.end,
            place,
        })?;
    }
    places.sort_by_key(|p| p.end)?;
    places.sort_by_key(|p| p.granule)?;
    Ok(places)
}

/// The places of one granule's operations, sorted by ends.
pub(crate) fn of_granule(
    alloc: Global,
    ops: &[Operation],
    granule: u64,
) -> Result<Vec<Placed>, AllocError>
    ensures { IfOk result (λ places. IsGrouped ops.now (is_of ops.now granule) places.items) }
{
    let mut places = Vec::new(alloc);
    for place in 0..ops.len() {
        let op = &ops[place];
        if op.granule() == granule {
            places.push(Placed {
                granule,
                end: op.end,
                place,
            })?;
        }
    }
    places.sort_by_key(|p| p.end)?;
    Ok(places)
}
