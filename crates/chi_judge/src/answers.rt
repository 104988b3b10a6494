//! Answers that an operation may have given.

ghost use Rattle.std.specs.Prelude.{◌<◌, IfOk, length};
ghost use Rattle.chi_search.specs.Looks.{LookedSome};

use crate::legal::with_reply;
use crate::search::{told_after, words_by};
use crate::suspects::number_at;
use chi_fields::Access;
use chi_lanes::{Reply, apply};
use chi_search::{Found, Frontier, Progress, Words};
use chi_trace::{Operation, cut};
use std::alloc::{AllocError, Global};

/// The greatest number of answers at words that are tried, and of times at which these words are looked for.
const MOST: usize = 16;

/// How many states may be looked at for the words at all of these times: so many for each operation, and so many at least.
const EACH: u64 = 64;

const LEAST: u64 = 16_384;

/// How many may be looked at for an order: so many for each operation, and so many beside them.
const ORDER_EACH: u64 = 2;

const ORDER_LEAST: u64 = 4096;

/// The times at which the words that an operation may have found are looked for: before each end of another one that came while it
/// was open, beside the time before its own.
fn times_before(
    alloc: Global,
    ops: &[Operation],
    time: u64,
    place: usize,
) -> Result<Vec<u64>, AllocError>
    requires { place < length ops.now }
{
    let start = ops[place].start;
    let mut times = Vec::new(alloc);
    for op in ops {
        if op.end >= start && op.end < time && times.len() < MOST {
            times.push(op.end.saturating_sub(1))?;
        }
    }
    Ok(times)
}

/// The answers that an operation gives at some words, with those before, 16 at most.
fn add_answers(replies: &mut Vec<Reply>, access: &Access, words: &[u64]) -> Result<(), AllocError> {
    for word in words {
        let (_, reply) = apply(*word, access);
        if replies.len() < MOST && !replies.contains(&reply) {
            replies.push(reply)?;
        }
    }
    Ok(())
}

/// Answers that are worth trying: those at the words that the granule can hold up to the time before, and at these times, whatever it
/// was answered.
fn answers_at<P: Progress>(
    alloc: Global,
    before: &Frontier,
    ops: &[Operation],
    words: &Words,
    times: &[u64],
    place: usize,
    budget: u64,
    progress: &mut P,
) -> Result<Vec<Reply>, AllocError>
    requires { place < length ops.now }
    ensures { IfOk result (λ _. LookedSome P.looked progress.old progress.new) }
{
    let access = ops[place].access;
    let unseen = with_reply(alloc, ops, place, None)?;
    let mut replies = Vec::new(alloc);
    if let Words::Each(words) = words {
        add_answers(&mut replies, &access, words)?;
    }
    let mut left = budget;
    for time in times {
        if let Words::Each(words) = words_by(alloc, before, &unseen, *time, &mut left, progress)? {
            add_answers(&mut replies, &access, &words)?;
        }
    }
    Ok(replies)
}

/// The answer that an operation gives in an order of those that a search keeps, if it stands there.
fn answer_along(
    alloc: Global,
    search: &Frontier,
    order: &[usize],
    op: &Operation,
) -> Result<Option<Reply>, AllocError> {
    let ops = search.operations();
    for count in 0..order.len() {
        if number_at(ops, order[count]) == op.number {
            return match search.word_along(alloc, &order[..count])? {
                Some(word) => Ok(Some(apply(word, &op.access).1)),
                None => Ok(None),
            };
        }
    }
    Ok(None)
}

/// The answer that the operation at a place gives in an order by which the search goes on to a word by a time, whatever it was
/// answered, if one is found.
fn answer_in_order<P: Progress>(
    alloc: Global,
    before: &Frontier,
    ops: &[Operation],
    time: u64,
    place: usize,
    budget: u64,
    progress: &mut P,
) -> Result<Option<Reply>, AllocError>
    requires { place < length ops.now }
    ensures { IfOk result (λ _. LookedSome P.looked progress.old progress.new) }
{
    let unseen = with_reply(alloc, ops, place, None)?;
    let known = cut(alloc, &unseen, time)?;
    let Some(search) = told_after(alloc, before, &known)? else {
        return Ok(None);
    };
    let mut left = budget;
    match search.order(alloc, None, &mut left, progress)? {
        Found::Order(order) => {
            let answer = answer_along(alloc, &search, &order, &ops[place])?;
            Ok(answer)
        }
        Found::Nothing => Ok(None),
        Found::Undecided => Ok(None),
    }
}

/// Answers that are worth trying: those at words that the granule can hold, and one by which all operations go on, or those that were
/// known by the time.
pub(crate) fn answers_of<P: Progress>(
    alloc: Global,
    before: &Frontier,
    ops: &[Operation],
    time: u64,
    place: usize,
    words: &Words,
    budget: u64,
    progress: &mut P,
) -> Result<Vec<Reply>, AllocError>
    requires { place < length ops.now }
    ensures { IfOk result (λ _. LookedSome P.looked progress.old progress.new) }
{
    let count = ops.len() as u64;
    let states = count.saturating_mul(EACH).max(LEAST).min(budget);
    let times = times_before(alloc, ops, time, place)?;
    let mut answers = answers_at(alloc, before, ops, words, &times, place, states, progress)?;
    let states = count
        .saturating_mul(ORDER_EACH)
        .saturating_add(ORDER_LEAST)
        .min(budget);
    let mut found = answer_in_order(alloc, before, ops, u64::MAX, place, states, progress)?;
    if found.is_none() {
        found = answer_in_order(alloc, before, ops, time, place, states, progress)?;
    }
    if let Some(reply) = found
        && !answers.contains(&reply)
    {
        answers.push(reply)?;
    }
    Ok(answers)
}
