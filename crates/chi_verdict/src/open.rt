//! How many operations were open at one time.

ghost use Rattle.std.specs.Prelude.{◌≡◌, IfOk};
ghost use Rattle.chi_trace.specs.Explains.{IsTrace};
ghost use Rattle.chi_verdict.specs.Open.{most_at_once, most_open};

use chi_trace::{Operation, Trace, operations_of};
use std::alloc::{AllocError, Global};

// How many of these operations were open at one time, at most.
fn most_at_once(alloc: Global, ops: &[Operation]) -> Result<usize, AllocError>
    requires traced { IsTrace ops.now }
    ensures { IfOk result (λ most. most ≡ most_at_once ops.now) }
{
    let mut ends: Vec<u64> = Vec::new(alloc);
    let mut most = 0;
    for op in ops {
        ends.retain(|end| op.start <= *end);
        ends.push(op.end)?;
        most = most.max(ends.len());
    }
    Ok(most)
}

/// How many operations of a granule of the trace were open at one time, at most.
///
/// ```
/// let open = most_open(alloc, &trace, 0x1000 / 8)?;
/// ```
pub fn most_open(alloc: Global, trace: &Trace, granule: u64) -> Result<usize, AllocError>
    ensures { IfOk result (λ most. most ≡ most_open trace.now.operations granule) }
{
    let own = operations_of(alloc, trace.operations(), granule)?;
    most_at_once(alloc, &own)
}
