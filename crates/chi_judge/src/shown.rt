//! The operations that are shown of where a granule's stop being explained.

ghost use Rattle.std.specs.Prelude.{◌≡◌, ◌<◌, ◌≤◌, ◌++◌, true, All, None, IfOk, IfSome, IsPermutation, length};
ghost use Rattle.std.specs.List.{filter, remove};
ghost use Rattle.chi_trace.specs.Explains.{at, is_answered};
ghost use Rattle.chi_judge.specs.Legal.{IsAnsweredAt};
ghost use Rattle.chi_judge.specs.Searches.{is_during};
ghost use Rattle.chi_judge.specs.Shown.{IsOfFirstRequest, had_ended, last_of};

use chi_trace::Operation;
use std::alloc::{AllocError, Global};

/// The place of an operation that was answered at a time.
fn any_answered_at(ops: &[Operation], time: u64) -> Option<usize>
    ensures within { IfSome result (λ place. place < length ops.now) }
    ensures answered { IfSome result (IsAnsweredAt ops.now time) }
    ensures none { result ≡ None → All (λ op. is_answered op ≡ true → op.end ≡ time → ⊥) ops.now }
{
    for (place, op) in ops.iter().enumerate() {
        if op.end == time && op.reply.is_some() {
            return Some(place);
        }
    }
    None
}

/// Of an operation that was answered at a time and of another, the place of the one of the earlier request that was.
fn earlier_of(ops: &[Operation], first: usize, other: usize, time: u64) -> usize
    requires first { IsAnsweredAt ops.now time first }
    requires first_within { first < length ops.now }
    requires other_within { other < length ops.now }
    ensures within { result < length ops.now }
    ensures answered { IsAnsweredAt ops.now time result }
    ensures no_later { (at ops.now result).number ≤ (at ops.now first).number }
    ensures earlier { is_answered (at ops.now other) ≡ true → (at ops.now other).end ≡ time → (at ops.now result).number ≤ (at ops.now other).number }
{
    let op = &ops[other];
    if op.end == time && op.reply.is_some() && op.number < ops[first].number {
        return other;
    }
    first
}

/// The place of the operation that was answered at a time; where there are several, of the one of the first request.
pub(crate) fn answered_at(ops: &[Operation], time: u64) -> Option<usize>
    ensures within { IfSome result (λ place. place < length ops.now) }
    ensures answered { IfSome result (IsAnsweredAt ops.now time) }
    ensures request { IfSome result (λ place. IsOfFirstRequest ops.now time (at ops.now place).number) }
    ensures none { result ≡ None → All (λ op. is_answered op ≡ true → op.end ≡ time → ⊥) ops.now }
{
    let mut first = any_answered_at(ops, time)?;
    for place in 0..ops.len() {
        first = earlier_of(ops, first, place, time);
    }
    Some(first)
}

/// Those that had started by a time and had not ended before, in the order of their requests.
pub(crate) fn open_at(
    alloc: Global,
    kept: &[Operation],
    time: u64,
) -> Result<Vec<Operation>, AllocError>
    ensures { IfOk result (λ during. IsPermutation (filter (is_during time) kept.now) during.items) }
{
    let mut during = Vec::new(alloc);
    for op in kept {
        if op.start <= time && time <= op.end {
            during.push(*op)?;
        }
    }
    during.sort_by_key(|op| op.number)?;
    Ok(during)
}

/// The last of some operations, so many at most.
fn last_of(alloc: Global, most: usize, ops: &[Operation]) -> Result<Vec<Operation>, AllocError>
    ensures { IfOk result (λ last. last.items ≡ last_of most ops.now) }
{
    Vec::from_slice(alloc, &ops[ops.len().saturating_sub(most)..])
}

/// The last of some operations and of others after them, so many at most.
pub(crate) fn last_with(
    alloc: Global,
    most: usize,
    earlier: &[Operation],
    next: &[Operation],
) -> Result<Vec<Operation>, AllocError>
    ensures { IfOk result (λ last. last.items ≡ last_of most (earlier.now ++ next.now)) }
{
    let mut ops = Vec::from_slice(alloc, earlier)?;
    ops.extend_from_slice(next)?;
    last_of(alloc, most, &ops)
}

/// Those that had ended by a time.
fn ended_by(alloc: Global, kept: &[Operation], time: u64) -> Result<Vec<Operation>, AllocError>
    ensures { IfOk result (λ ended. ended.items ≡ filter (had_ended time) kept.now) }
{
    kept.iter()
        .copied()
        .filter(|op| op.end <= time)
        .collect(alloc)
}

/// The last that had ended by a time, of those that were left to the search and of those that are kept, but the one at a place.
pub(crate) fn before_at(
    alloc: Global,
    most: usize,
    left: &[Operation],
    kept: &[Operation],
    time: u64,
    place: usize,
) -> Result<Vec<Operation>, AllocError>
    requires { place < length kept.now }
    ensures { IfOk result (λ before. before.items ≡ last_of most (left.now ++ filter (had_ended time) (remove kept.now place))) }
{
    let mut others = Vec::from_slice(alloc, kept)?;
    others.remove(place);
    let ended = ended_by(alloc, &others, time)?;
    last_with(alloc, most, left, &ended)
}
