//! What tests tell a home, and what they compare after it.

use super::home::{Told, assert_load, event, fault, take};
use crate::tests::comparison::assert_same;
use chi_events::{EventFault, Outstanding};
use chi_fields::Refusal;
use chi_lanes::Reply;
use chi_trace::Operation;
use std::alloc::Global;
use std::process::Abort;
use std::test::Fail;

/// A step of a test:
///
/// - `Take`: this is told at a time, and no operation ends.
/// - `Ends`: the load with its data ends, which started at the last time, with this reply.
/// - `Replies`: an operation ends with this reply.
/// - `Fails`: what is told meets this fault.
/// - `Reason`: the reason for which what is told at 20 refuses a request.
/// - `Left`: so many requests are outstanding.
/// - `Requests`: these are, by their numbers and starts.
#[derive(Clone, Copy)]
pub(crate) enum Step<'a> {
    Take(u64, Told),
    Ends(u64, Told, u64, Option<Reply>),
    Replies(u64, Told, Reply),
    Fails(u64, Told, EventFault),
    Reason(Told, Option<Refusal>),
    Left(usize),
    Requests(&'a [(u64, u64)]),
}

// The reply of an operation that ended.
fn reply_of(ended: Option<Operation>) -> Option<Reply> {
    ended?.reply
}

// The numbers and the starts of the requests.
fn numbers_and_starts(alloc: Global, outstanding: &Outstanding) -> Result<Vec<(u64, u64)>, Fail> {
    let mut list = Vec::new(alloc);
    for request in &outstanding.requests(alloc)? {
        list.push((request.id, request.start))?;
    }
    Ok(list)
}

fn assert_step<R: AllocGlobal + Abort>(
    rt: &R,
    (case, place): (&str, usize),
    outstanding: &mut Outstanding,
    step: &Step<'_>,
) -> Result<(), Fail> {
    match *step {
        Step::Take(time, told) => {
            let ended = take(outstanding, time, told)?;
            assert_same(rt, (case, time, ended.is_none()), (case, time, true));
        }
        Step::Ends(time, told, start, reply) => {
            let ended = take(outstanding, time, told)?;
            assert_load(rt, case, ended, (start, time), reply);
        }
        Step::Replies(time, told, reply) => {
            let ended = take(outstanding, time, told)?;
            assert_same(
                rt,
                (case, place, reply_of(ended)),
                (case, place, Some(reply)),
            );
        }
        Step::Fails(time, told, wanted) => {
            assert_same(
                rt,
                (case, place, fault(outstanding, time, told)),
                (case, place, Some(wanted)),
            );
        }
        Step::Reason(told, wanted) => {
            assert_same(
                rt,
                (case, place, outstanding.refusal(&event(20, told))),
                (case, place, wanted),
            );
        }
        Step::Left(count) => assert_same(
            rt,
            (case, place, outstanding.count()),
            (case, place, count),
        ),
        Step::Requests(wanted) => {
            let found = numbers_and_starts(rt.alloc(), outstanding)?;
            assert_same(rt, (case, found.as_slice()), (case, wanted));
        }
    }
    Ok(())
}

fn assert_steps<R: AllocGlobal + Abort>(
    rt: &R,
    case: &str,
    steps: &[Step<'_>],
) -> Result<(), Fail> {
    let mut outstanding = Outstanding::new(rt.alloc())?;
    for (place, step) in steps.iter().enumerate() {
        assert_step(rt, (case, place), &mut outstanding, step)?;
    }
    Ok(())
}

/// A case has a name.
pub(crate) type Case = (&'static str, &'static [Step<'static>]);

/// Takes the steps of each case.
pub(crate) fn assert_cases<R: AllocGlobal + Abort>(rt: &R, cases: &[Case]) -> Result<(), Fail> {
    for (case, steps) in cases {
        assert_steps(rt, case, steps)?;
    }
    Ok(())
}
