//! What is found of flits, and the operations that they tell.

use crate::tests::comparison::assert_same;
use crate::tests::events::{GOING, answer, joined, places, watched};
use crate::tests::flits::{
    CREDIT, CREDIT_BEFORE, FIVE, FLITS, HIGH, LAST, LOW, READ, SIX, STALE_BOTH, STALE_HIGH, WORD,
    WRITE,
};
use chi_judge::Standing;
use chi_watch::Counts;
use chi_watch_text::{ErrorEffect, LineFormat, WatchOptions, read_events, read_operations};
use std::test::Fail;

// A read of a word that memory never held is found by the line of its data.
#[test]
fn a_stale_read(rt: HostRuntime) -> Result<(), Fail> {
    let text = answer(rt.alloc(), &[WORD, READ, CREDIT, SIX], &FLITS)?;
    assert_same(
        &rt,
        text.as_str(),
        "not explained: granule 0000000000001000
at 5: 3 4 04 ReadNoSnp 3 0000000000001000 answered
  the granule can hold 0500000000000000
  open from 3 to 5: 3 4 04 ReadNoSnp 3 0000000000001000 answered
  explained up to 4
  the last operations of the granule, from time 3 to 5:
  > line 2 |########################################|  3 to 5  ReadNoSnp  +0 L8  returned 0600000000000000  requester 3 txn 4
    legal would be:  returned 0500000000000000
    unlike each of these: +0 is 06
  at line 4
  operations that ended: 1
  requests outstanding: 0
  granules: 1
  granules not judged: 0
",
    );
    Ok(())
}

// The reply and the data of the write tell an event of each of its two granules.
#[test]
fn a_write_of_two_granules(rt: HostRuntime) -> Result<(), Fail> {
    for texts in &[
        [WRITE, CREDIT, LOW, HIGH].as_slice(),
        &[WRITE, CREDIT, LOW, HIGH, " \n\r\n\t"],
    ] {
        let watched = watched(rt.alloc(), texts, &FLITS)?;
        let counts = Counts {
            ended: 4,
            outstanding: 0,
            granules: 2,
        };
        assert_same(
            &rt,
            (watched.verdict(), watched.counts, watched.unjudged),
            (Standing::Explained, counts, 0),
        );
    }
    Ok(())
}

// It keeps going.
const GOING_FLITS: WatchOptions = WatchOptions {
    format: LineFormat::Flits {
        errors: ErrorEffect::Unknown,
    },
    ..GOING
};

// Lines with how they are read, and the granules that are found by lines.
type FoundCase = (WatchOptions, &'static [&'static str], &'static [(u64, u64)]);

static FOUND: [FoundCase; 5] = [
    (FLITS, &[WORD, READ, CREDIT, FIVE], &[]),
    (FLITS, &[WORD, READ, CREDIT, SIX, LAST], &[(512, 4)]),
    (FLITS, &[WRITE, CREDIT, LOW, STALE_HIGH], &[(513, 8)]),
    (
        FLITS,
        &[WRITE, CREDIT, LOW, STALE_BOTH, LAST],
        &[(512, 8), (513, 8)],
    ),
    (
        GOING_FLITS,
        &[WRITE, CREDIT, LOW, STALE_BOTH, LAST],
        &[(512, 8), (513, 8)],
    ),
];

// The granules at 4096 and 4104 have the numbers 512 and 513. Where one line tells the replies of both, both are found by it, also
// where it stops at the first.
#[test]
fn granules_and_their_lines(rt: HostRuntime) -> Result<(), Fail> {
    for (options, texts, wanted) in &FOUND {
        let watched = watched(rt.alloc(), texts, options)?;
        let places = places(rt.alloc(), &watched)?;
        assert_same(
            &rt,
            (texts.len(), places.as_slice()),
            (texts.len(), *wanted),
        );
    }
    Ok(())
}

// Lines, and those of them that are kept.
static KEPT: [(&[&str], &[&str]); 3] = [
    (
        &[CREDIT_BEFORE, WORD, READ, CREDIT, FIVE, "\n"],
        &[CREDIT_BEFORE, WORD, READ, CREDIT, FIVE],
    ),
    (&[WORD, READ, CREDIT, SIX, LAST], &[WORD, READ, CREDIT, SIX]),
    (
        &[WRITE, CREDIT, LOW, HIGH, LAST],
        &[WRITE, CREDIT, LOW, HIGH, LAST],
    ),
];

// Of the lines that are taken, those of flits that tell nothing are kept too. It stops at the line after the one that is found by.
#[test]
fn lines_that_are_kept(rt: HostRuntime) -> Result<(), Fail> {
    let keeping = WatchOptions {
        keep_lines: true,
        ..FLITS
    };
    for (texts, wanted) in &KEPT {
        let kept = watched(rt.alloc(), texts, &keeping)?
            .kept
            .unwrap_or(Vec::new(rt.alloc()));
        let wanted = joined(rt.alloc(), wanted)?;
        assert_same(&rt, String::from_utf8(kept)?, String::from_utf8(wanted)?);
    }
    Ok(())
}

// Each operation has the number of the line of its request. The write ends once its data have come, which is after its reply.
#[test]
fn operations_of_flits(rt: HostRuntime) -> Result<(), Fail> {
    let text = joined(rt.alloc(), &[WRITE, CREDIT, LOW, HIGH, LAST])?;
    let wanted = [(1, 1, 3), (1, 1, 3), (5, 5, 6), (7, 7, 8)];
    let mut from = text.as_slice();
    let told = read_operations(
        rt.alloc(),
        &mut from,
        LineFormat::Flits {
            errors: ErrorEffect::Unknown,
        },
    )?;
    let times: Vec<(u64, u64, u64)> = told
        .operations
        .iter()
        .map(|op| (op.number, op.start, op.end))
        .collect(rt.alloc())?;
    assert_same(&rt, times.as_slice(), wanted.as_slice());
    let mut from = text.as_slice();
    let recorded = read_events(
        rt.alloc(),
        &mut from,
        LineFormat::Flits {
            errors: ErrorEffect::Unknown,
        },
    )?;
    let times: Vec<(u64, u64, u64)> = recorded
        .trace()
        .operations()
        .iter()
        .map(|op| (op.number, op.start, op.end))
        .collect(rt.alloc())?;
    assert_same(&rt, times.as_slice(), wanted.as_slice());
    assert_same(&rt, recorded.final_words().get(513), Some(7));
    Ok(())
}
