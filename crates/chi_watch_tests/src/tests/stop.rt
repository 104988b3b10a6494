//! Where a granule stops being explained, as tests tell it.

use crate::tests::comparison::assert_same;
use crate::tests::home::lanes;
use chi_judge::Reach;
use chi_lanes::Reply;
use chi_search::Words;
use chi_trace::Operation;
use std::alloc::Global;
use std::process::Abort;
use std::test::Fail;

/// Where a granule stops being explained: the time, the request that was answered then, the starts of those that were open, and
/// the words that the granule can hold before; and by their numbers the operation that is blamed, those before it and those that
/// were open, and the first bytes of the answers that would have been legal.
#[derive(Clone, Copy)]
pub(crate) struct Stop<'a> {
    pub(crate) time: u64,
    pub(crate) opcode: u8,
    pub(crate) starts: &'a [u64],
    pub(crate) words: &'a [u64],
    pub(crate) blamed: u64,
    pub(crate) before: &'a [u64],
    pub(crate) open: &'a [u64],
    pub(crate) legal: &'a [u64],
}

fn numbers(alloc: Global, ops: &[Operation]) -> Result<Vec<u64>, Fail> {
    Ok(ops.iter().map(|op| op.number).collect(alloc)?)
}

fn starts(alloc: Global, ops: &[Operation]) -> Result<Vec<u64>, Fail> {
    Ok(ops.iter().map(|op| op.start).collect(alloc)?)
}

// The numbers of the operations that were answered.
fn answered(alloc: Global, ops: &[Operation]) -> Result<Vec<u64>, Fail> {
    Ok(
        ops.iter()
            .filter(|op| op.reply.is_some())
            .map(|op| op.number)
            .collect(alloc)?,
    )
}

/// These numbers in rising order.
pub(crate) fn rising(alloc: Global, each: &[u64]) -> Result<Vec<u64>, Fail> {
    let mut list = Vec::from_slice(alloc, each)?;
    list.sort()?;
    Ok(list)
}

// The first bytes of these answers, in rising order; the others have to be 0.
fn legal(alloc: Global, replies: &[Reply]) -> Result<Vec<u64>, Fail> {
    let mut list = Vec::new(alloc);
    for reply in replies {
        if let Reply::CompData(bytes) = reply {
            if *bytes == lanes(u16::from(bytes[0])) {
                list.push(u64::from(bytes[0]))?;
            }
        }
    }
    list.sort()?;
    Ok(list)
}

// Compares numbers of a case, which are listed once that was possible.
fn assert_listed<R: Abort>(
    rt: &R,
    (case, what): (&str, &str),
    found: Result<Vec<u64>, Fail>,
    wanted: &[u64],
) -> Result<(), Fail> {
    let found = found?;
    assert_same(rt, (case, what, found.as_slice()), (case, what, wanted));
    Ok(())
}

// Compares the numbers of those of an order's last operations that were answered: these came one after the other, and where there are
// 16 of them or more the first may be left out.
fn assert_order<R: AllocGlobal + Abort>(
    rt: &R,
    case: &str,
    order: &[Operation],
    ended: &[u64],
) -> Result<(), Fail> {
    let answered = answered(rt.alloc(), order)?;
    let from = ended.len().saturating_sub(answered.len());
    assert_same(rt, (case, from == 0 || ended.len() >= 16), (case, true));
    assert_same(rt, (case, answered.as_slice()), (case, &ended[from..]));
    Ok(())
}

// The words that the granule can hold, or none where they are not known.
fn known(words: &Words) -> &[u64] {
    match words {
        Words::Each(words) => words,
        Words::Unknown => &[],
    }
}

/// Compares the time at which operations stop being explained, the request that was answered then, those that were open, by their
/// starts, and the words that the granule can hold before.
pub(crate) fn assert_stop<R: AllocGlobal + Abort>(
    rt: &R,
    case: &str,
    reach: &Reach,
    (time, opcode): (u64, u8),
    starts_wanted: &[u64],
    words: &[u64],
) -> Result<(), Fail> {
    let Reach::Stops(stop) = reach else {
        return Err(Fail::new("it does not stop"));
    };
    assert_same(
        rt,
        (case, stop.time, stop.op.opcode()),
        (case, time, opcode),
    );
    let open = starts(rt.alloc(), &stop.overlapping);
    assert_listed(rt, (case, "starts"), open, starts_wanted)?;
    let held = rising(rt.alloc(), known(&stop.words));
    assert_listed(rt, (case, "words"), held, words)
}

/// Compares where a granule stops being explained. Those that had ended before have to have come one after the other.
pub(crate) fn assert_stops<R: AllocGlobal + Abort>(
    rt: &R,
    case: &str,
    reach: &Reach,
    wanted: Stop<'_>,
) -> Result<(), Fail> {
    let at = (wanted.time, wanted.opcode);
    assert_stop(rt, case, reach, at, wanted.starts, wanted.words)?;
    let Reach::Stops(stop) = reach else {
        return Err(Fail::new("it does not stop"));
    };
    assert_same(rt, (case, stop.op.number), (case, wanted.blamed));
    assert_listed(
        rt,
        (case, "before"),
        numbers(rt.alloc(), &stop.before),
        wanted.before,
    )?;
    assert_order(rt, case, &stop.order, wanted.before)?;
    assert_listed(
        rt,
        (case, "open"),
        numbers(rt.alloc(), &stop.overlapping),
        wanted.open,
    )?;
    assert_listed(
        rt,
        (case, "legal"),
        legal(rt.alloc(), &stop.legal),
        wanted.legal,
    )
}
