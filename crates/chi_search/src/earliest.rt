//! The earliest starts of operations, and the next operation that starts by a time.

ghost use Rattle.std.specs.Prelude.{ℕ, ◌<◌, ◌≤◌, IfOk, length};
ghost use Rattle.chi_trace.specs.Explains.{at};
ghost use Rattle.chi_search.specs.Paths.{AreEarliest, AreLeast, AreLower};

use chi_trace::Operation;
use std::alloc::{AllocError, Global};

/// For each place the earliest start of the operations from it on (`times`), and the next place whose operation starts before
/// the one at the place (`lower`). An operation that was still open at the end stands last and may start early: by `lower` the
/// operations between are stepped over.
#[derive(Drop)]
pub(crate) struct EarliestStarts {
    times: Vec<u64>,
    lower: Vec<usize>,
}

// For each place the earliest start of the operations from it on.
fn least_starts(alloc: Global, ops: &[Operation]) -> Result<Vec<u64>, AllocError>
    ensures { IfOk result (λ times. AreLeast ops.now times.items) }
{
    let mut times = vec![in alloc; u64::MAX; ops.len()]?;
    let mut least = u64::MAX;
    let mut place = ops.len();
    while place > 0 {
        place -= 1;
        least = least.min(ops[place].start);
        times[place] = least;
    }
    Ok(times)
}

// For each place the next one whose operation starts before the one at the place, or the number of operations where there is none.
fn lower_starts(alloc: Global, ops: &[Operation]) -> Result<Vec<usize>, AllocError>
    ensures { IfOk result (λ lower. AreLower ops.now lower.items) }
{
    let mut lower = vec![in alloc; ops.len(); ops.len()]?;
    let mut place = ops.len();
    while place > 0 {
        place -= 1;
        let start = ops[place].start;
        let mut candidate = place + 1;
        while candidate < ops.len() && ops[candidate].start >= start {
            candidate = lower[candidate];
        }
        lower[place] = candidate;
    }
    Ok(lower)
}

/// The earliest starts of the operations.
pub(crate) fn earliest_starts(
    alloc: Global,
    ops: &[Operation],
) -> Result<EarliestStarts, AllocError>
    ensures { IfOk result (λ starts. AreEarliest ops.now starts) }
{
    Ok(EarliestStarts {
        times: least_starts(alloc, ops)?,
        lower: lower_starts(alloc, ops)?,
    })
}

impl EarliestStarts {
    /// The first place from this one on whose operation starts by the time, or the number of operations where there is none.
    pub(crate) fn next(&self, ops: &[Operation], place: usize, time: u64) -> usize
        requires { AreEarliest ops.now self.now }
        ensures within { result ≤ length ops.now }
        ensures from { result < length ops.now → place ≤ result }
        ensures late { (i : ℕ) → place ≤ i → i < result → time < (at ops.now i).start }
        ensures starts { result < length ops.now → (at ops.now result).start ≤ time }
    {
        if place >= ops.len() || self.times[place] > time {
            return ops.len();
        }
        let mut next = place;
        while next < ops.len() && ops[next].start > time {
            next = self.lower[next];
        }
        next
    }

    /// A place, not before this one, from which on no operation starts by the time.
    pub(crate) fn past(&self, ops: &[Operation], place: usize, time: u64) -> usize
        requires earliest { AreEarliest ops.now self.now }
        requires place { place ≤ length ops.now }
        ensures within { result ≤ length ops.now }
        ensures late { (i : ℕ) → result ≤ i → i < length ops.now → time < (at ops.now i).start }
    {
        let mut low = place;
        let mut high = ops.len();
        while low < high {
            let middle = low + (high - low) / 2;
            if self.times[middle] > time {
                high = middle;
            } else {
                low = middle + 1;
            }
        }
        high
    }
}
