//! What would explain the operations, had one of them been answered otherwise.

ghost use Rattle.std.specs.Prelude.{◌≡◌, ◌<◌, ◌⊎◌, false, All, IfOk, IsTrue, None, Some, length};
ghost use Rattle.chi_search.specs.Found.{IfNothing, IfOrder, IfUndecided};
ghost use Rattle.chi_search.specs.Frontiers.{MayBeTold};
ghost use Rattle.chi_search.specs.Looks.{LookedMore, LookedSome};
ghost use Rattle.chi_judge.specs.Judges.{LiesWithin};
ghost use Rattle.chi_judge.specs.Legal.{LeadsNowhereWith, LeadsWith, with_reply};

use crate::answers::answers_of;
use crate::search::order_by;
use chi_lanes::Reply;
use chi_search::{Found, Frontier, Progress, Words};
use chi_trace::Operation;
use std::alloc::{AllocError, Global};

/// The operations, of which the one at a place has this reply, or none that was seen.
pub(crate) fn with_reply(
    alloc: Global,
    ops: &[Operation],
    place: usize,
    reply: Option<Reply>,
) -> Result<Vec<Operation>, AllocError>
    requires { place < length ops.now }
    ensures { IfOk result (λ changed. changed.items ≡ with_reply ops.now place reply) }
{
    let mut changed = Vec::from_slice(alloc, ops)?;
    changed[place].reply = reply;
    Ok(changed)
}

/// Whether the search goes on to a word by a time, where the operation at a place has this reply, or none that was seen.
pub(crate) fn order_with<P: Progress>(
    alloc: Global,
    before: &Frontier,
    ops: &[Operation],
    time: u64,
    place: usize,
    reply: Option<Reply>,
    budget: u64,
    progress: &mut P,
) -> Result<Found, AllocError>
    requires { place < length ops.now }
    ensures order { IfOk result (λ found. IfOrder found (λ order. LeadsWith before.now ops.now time place reply)) }
    ensures nothing { IfOk result (λ found. IfNothing found (LeadsNowhereWith before.now ops.now time place reply)) }
    ensures undecided { IfOk result (λ found. IfUndecided found (MayBeTold before.now ops.now → All LiesWithin ops.now → LookedMore P.looked progress.old progress.new budget)) }
    ensures looked { IfOk result (λ _. LookedSome P.looked progress.old progress.new) }
{
    let changed = with_reply(alloc, ops, place, reply)?;
    order_by(alloc, before, &changed, time, budget, progress)
}

/// Whether the search is seen to go on to a word by a time, where the operation at a place has this reply.
fn is_legal<P: Progress>(
    alloc: Global,
    before: &Frontier,
    ops: &[Operation],
    time: u64,
    place: usize,
    reply: Reply,
    budget: u64,
    progress: &mut P,
) -> Result<bool, AllocError>
    requires { place < length ops.now }
    ensures legal { IfOk result (λ is. IsTrue is → LeadsWith before.now ops.now time place (Some reply)) }
    ensures looked { IfOk result (λ _. LookedSome P.looked progress.old progress.new) }
{
    match order_with(
        alloc,
        before,
        ops,
        time,
        place,
        Some(reply),
        budget,
        progress,
    )? {
        Found::Order(_) => Ok(true),
        Found::Nothing => Ok(false),
        Found::Undecided => Ok(false),
    }
}

/// Answers of the operation at a place with which the search is seen to go on to a word by a time, within so many states each. `words`
/// are those up to the time before, where they are known.
pub(crate) fn legal_replies<P: Progress>(
    alloc: Global,
    before: &Frontier,
    ops: &[Operation],
    time: u64,
    place: usize,
    words: &Words,
    budget: u64,
    progress: &mut P,
) -> Result<Vec<Reply>, AllocError>
    requires { place < length ops.now }
    ensures legal { IfOk result (λ legal. All (λ reply. LeadsWith before.now ops.now time place (Some reply)) legal.items) }
    ensures looked { IfOk result (λ _. LookedSome P.looked progress.old progress.new) }
{
    let mut legal = Vec::new(alloc);
    for reply in &answers_of(alloc, before, ops, time, place, words, budget, progress)? {
        if is_legal(alloc, before, ops, time, place, *reply, budget, progress)? {
            legal.push(*reply)?;
        }
    }
    Ok(legal)
}
