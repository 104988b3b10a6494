//! What is found while events come.

use crate::tests::comparison::assert_same;
use crate::tests::home::{FoundCase, GRANULE, Told, assert_each_found, granule_if, record, take};
use chi_watch::{Watch, WatchFault};
use std::alloc::Global;
use std::process::Abort;
use std::test::Fail;

// A write of 5 has ended before the read starts, so the read cannot answer 0. While it is outstanding a read may answer 0 or 5, but not 0
// after another that answered 5 and ended. Where both of two overlapping AtomicLoads found 0, one was lost. It is found when the second
// ends, since no other is outstanding.
static LOST: [FoundCase; 7] = [
    (
        "a_write_that_is_read_or_lost: 0",
        &[
            Told::Write(1, 5),
            Told::Done(1),
            Told::Read(2),
            Told::Answer(2, 0),
        ],
        true,
    ),
    (
        "a_write_that_is_read_or_lost: 5",
        &[
            Told::Write(1, 5),
            Told::Done(1),
            Told::Read(2),
            Told::Answer(2, 5),
        ],
        false,
    ),
    (
        "reads_beside_a_write: 0 and 0",
        &[
            Told::Write(1, 5),
            Told::Read(2),
            Told::Answer(2, 0),
            Told::Read(3),
            Told::Answer(3, 0),
            Told::Done(1),
        ],
        false,
    ),
    (
        "reads_beside_a_write: 0 and 5",
        &[
            Told::Write(1, 5),
            Told::Read(2),
            Told::Answer(2, 0),
            Told::Read(3),
            Told::Answer(3, 5),
            Told::Done(1),
        ],
        false,
    ),
    (
        "reads_beside_a_write: 5 and 5",
        &[
            Told::Write(1, 5),
            Told::Read(2),
            Told::Answer(2, 5),
            Told::Read(3),
            Told::Answer(3, 5),
            Told::Done(1),
        ],
        false,
    ),
    (
        "reads_beside_a_write: 5 and 0",
        &[
            Told::Write(1, 5),
            Told::Read(2),
            Told::Answer(2, 5),
            Told::Read(3),
            Told::Answer(3, 0),
            Told::Done(1),
        ],
        true,
    ),
    (
        "a_lost_addition",
        &[
            Told::Add(1, 1),
            Told::Add(2, 1),
            Told::Answer(1, 0),
            Told::Answer(2, 0),
        ],
        true,
    ),
];

#[test]
fn lost_writes_and_additions(rt: HostRuntime) -> Result<(), Fail> {
    assert_each_found(&rt, &LOST)
}

// The word that is told before the first request is the one that the granule has. What starts after something that is not told is not
// judged. A word that is told after that is what the granule holds, and what starts then is judged.
static WORDS: [FoundCase; 6] = [
    (
        "a_word_at_the_opening: 7",
        &[Told::Word(7), Told::Read(1), Told::Answer(1, 7)],
        false,
    ),
    (
        "a_word_at_the_opening: 0",
        &[Told::Word(7), Told::Read(1), Told::Answer(1, 0)],
        true,
    ),
    (
        "something_unknown: at 4100",
        &[Told::Unknown(4100, 1), Told::Read(1), Told::Answer(1, 9)],
        false,
    ),
    (
        "something_unknown: at 4104",
        &[Told::Unknown(4104, 64), Told::Read(1), Told::Answer(1, 9)],
        true,
    ),
    (
        "a_word_told_again: 7",
        &[
            Told::Write(1, 5),
            Told::Done(1),
            Told::Unknown(4096, 8),
            Told::Word(7),
            Told::Read(2),
            Told::Answer(2, 7),
        ],
        false,
    ),
    (
        "a_word_told_again: 0",
        &[
            Told::Write(1, 5),
            Told::Done(1),
            Told::Unknown(4096, 8),
            Told::Word(7),
            Told::Read(2),
            Told::Answer(2, 0),
        ],
        true,
    ),
];

#[test]
fn words_that_are_told_and_not_told(rt: HostRuntime) -> Result<(), Fail> {
    assert_each_found(&rt, &WORDS)
}

// A hundred additions of 1, each of which starts before the one before it ends: what is found before the last one ends, and when
// that answers this.
fn never_quiet(alloc: Global, last: u16) -> Result<(bool, Option<u64>), WatchFault> {
    let mut watch = Watch::new(alloc, 16)?;
    let mut is_found = take(alloc, &mut watch, 0, Told::Add(0, 1))?.is_some();
    for number in 1..100_u16 {
        let id = u64::from(number);
        let starts = take(alloc, &mut watch, id * 10, Told::Add(id, 1))?;
        let ended = Told::Answer(id - 1, number - 1);
        let ends = take(alloc, &mut watch, id * 10 + 1, ended)?;
        is_found = is_found || starts.is_some() || ends.is_some();
    }
    let found = take(alloc, &mut watch, 1000, Told::Answer(99, last))?;
    Ok((is_found, found))
}

// Nothing is found until the last ends, since the granule is never quiet.
#[test]
fn a_granule_that_is_never_quiet(rt: HostRuntime) -> Result<(), Fail> {
    for (last, is_found) in [(99, false), (98, true)] {
        let found = never_quiet(rt.alloc(), last)?;
        assert_same(&rt, (last, found), (last, (false, granule_if(is_found))));
    }
    Ok(())
}

// Compares whether an operation ends by each of these events, which are recorded.
fn assert_recorded<R: AllocGlobal + Abort>(
    rt: &R,
    watch: &mut Watch,
    events: &[(Told, bool)],
) -> Result<(), Fail> {
    for (told, is_end) in events {
        let ended = record(rt.alloc(), watch, 1, *told)?;
        assert_same(rt, ended.is_some(), *is_end);
    }
    Ok(())
}

// What is recorded is not judged, and the operation that ended is answered.
#[test]
fn events_that_are_recorded(rt: HostRuntime) -> Result<(), Fail> {
    let mut watch = Watch::new(rt.alloc(), 16)?;
    let events = [
        (Told::Write(1, 5), false),
        (Told::Done(1), true),
        (Told::Read(2), false),
        (Told::Answer(2, 0), true),
    ];
    assert_recorded(&rt, &mut watch, &events)?;
    assert_same(&rt, watch.counts().ended, 2);
    assert_same(&rt, watch.unknown_since(GRANULE), None);
    Ok(())
}
