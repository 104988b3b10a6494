//! How far the operations of a granule that is found can be explained, and which of them are shown.

use crate::tests::comparison::assert_same;
use crate::tests::home::{BUDGET, GRANULE, Told, ending_of, take, take_all};
use crate::tests::stop::{Stop, assert_stop, assert_stops, rising};
use chi_judge::Reach;
use chi_search::{NoProgress, Words};
use chi_watch::{Watch, WatchFault};
use std::alloc::Global;
use std::process::Abort;
use std::test::Fail;

/// How far a granule can be explained within so many states.
pub(crate) fn reach(
    alloc: Global,
    watch: &Watch,
    granule: u64,
    budget: u64,
) -> Result<Reach, Fail> {
    let found = watch.reach(alloc, granule, budget, &mut NoProgress)?;
    Ok(found.reach)
}

// How far the granule can be explained after these events.
fn reach_after(alloc: Global, events: &[Told], budget: u64) -> Result<Reach, Fail> {
    let mut watch = Watch::new(alloc, 16)?;
    take_all(alloc, &mut watch, events)?;
    reach(alloc, &watch, GRANULE, budget)
}

// A name, events, and where the granule stops being explained after them.
type Case = (&'static str, &'static [Told], Stop<'static>);

fn assert_each_stops<R: AllocGlobal + Abort>(rt: &R, cases: &[Case]) -> Result<(), Fail> {
    for (case, events, wanted) in cases {
        let reach = reach_after(rt.alloc(), events, BUDGET)?;
        assert_stops(rt, case, &reach, *wanted)?;
    }
    Ok(())
}

// In the first the write of 5, which starts at 1, has ended at 2. The read that starts at 3 answers 0 at 4, and up to 3 only 5 can be
// there.
//
// In the second both of two AtomicLoads that overlap answer 0. The second starts at 2 and answers at 4, where 1 would have been right;
// up to 3 the first has added its 1, and the second, which was open, its 1 or not.
//
// In the third the first read is dropped, and the second has its identifier. The write's data come after its request, which starts at 3.
static STOPS: [Case; 3] = [
    (
        "a_lost_write",
        &[
            Told::Write(1, 5),
            Told::Done(1),
            Told::Read(2),
            Told::Answer(2, 0),
        ],
        Stop {
            time: 4,
            opcode: 0x04,
            starts: &[3],
            words: &[5],
            blamed: 3,
            before: &[1],
            open: &[3],
            legal: &[5],
        },
    ),
    (
        "a_lost_addition",
        &[
            Told::Add(1, 1),
            Told::Add(2, 1),
            Told::Answer(1, 0),
            Told::Answer(2, 0),
        ],
        Stop {
            time: 4,
            opcode: 0x30,
            starts: &[2],
            words: &[1, 2],
            blamed: 2,
            before: &[1],
            open: &[2],
            legal: &[1],
        },
    ),
    (
        "identifiers_that_are_used_again",
        &[
            Told::Read(1),
            Told::Dropped(1),
            Told::WriteAlone(1),
            Told::Data(1, 5),
            Told::Done(1),
            Told::Read(1),
            Told::Answer(1, 7),
        ],
        Stop {
            time: 7,
            opcode: 0x04,
            starts: &[6],
            words: &[5],
            blamed: 6,
            before: &[3],
            open: &[6],
            legal: &[5],
        },
    ),
];

#[test]
fn where_a_granule_stops_being_explained(rt: HostRuntime) -> Result<(), Fail> {
    assert_each_stops(&rt, &STOPS)
}

/// Tells each of these at its time.
pub(crate) fn take_timed(
    alloc: Global,
    watch: &mut Watch,
    events: &[(u64, Told)],
) -> Result<(), WatchFault> {
    for (time, told) in events {
        take(alloc, watch, *time, *told)?;
    }
    Ok(())
}

// At time 0 nothing is known before.
#[test]
fn time_0(rt: HostRuntime) -> Result<(), Fail> {
    let mut watch = Watch::new(rt.alloc(), 16)?;
    let events = [(0, Told::Read(1)), (0, Told::Answer(1, 7))];
    take_timed(rt.alloc(), &mut watch, &events)?;
    let reach = reach(rt.alloc(), &watch, GRANULE, BUDGET)?;
    assert_stop(&rt, "time_0", &reach, (0, 0x04), &[0], &[])
}

// The words that the granule can hold at the end, in rising order, where it can be explained so far.
fn words_at_end(alloc: Global, reach: &Reach) -> Result<Vec<u64>, Fail> {
    match reach {
        Reach::Whole(Words::Each(words)) => rising(alloc, words),
        _ => Err(Fail::new("it is not explained to its end")),
    }
}

// Compares whether a granule is not looked at.
fn assert_undecided<R: AllocGlobal + Abort>(
    rt: &R,
    watch: &Watch,
    granule: u64,
    budget: u64,
) -> Result<(), Fail> {
    let reach = reach(rt.alloc(), watch, granule, budget)?;
    assert_same(
        rt,
        (granule, matches!(reach, Reach::Undecided)),
        (granule, true),
    );
    Ok(())
}

// Compares the words that the granule can hold at the end.
fn assert_whole<R: AllocGlobal + Abort>(rt: &R, reach: &Reach, wanted: &[u64]) -> Result<(), Fail> {
    let words = words_at_end(rt.alloc(), reach)?;
    assert_same(rt, words.as_slice(), wanted);
    Ok(())
}

// A granule that can be explained is so to its end, with the words that it can hold there; one of which nothing is told, or whose
// requests are outstanding, is not looked at.
#[test]
fn explained_and_not_looked_at(rt: HostRuntime) -> Result<(), Fail> {
    let mut watch = Watch::new(rt.alloc(), 16)?;
    let events = [Told::Write(1, 5), Told::Failed(1), Told::Read(2)];
    take_all(rt.alloc(), &mut watch, &events)?;
    assert_undecided(&rt, &watch, GRANULE, BUDGET)?;
    assert_undecided(&rt, &watch, GRANULE + 1, BUDGET)?;
    take(rt.alloc(), &mut watch, 9, Told::Dropped(2))?;
    assert_whole(&rt, &reach(rt.alloc(), &watch, GRANULE, BUDGET)?, &[0, 5])
}

// The read of 3 answered 6 at 4, where 0 or 5 would have been right, while the write of 2 is open to the end; and a
// word at the end that nobody wrote.
#[test]
fn at_the_end(rt: HostRuntime) -> Result<(), Fail> {
    let events = [
        Told::FinalNext(3),
        Told::Write(1, 5),
        Told::Read(2),
        Told::Answer(2, 6),
    ];
    let ending = ending_of(rt.alloc(), &events, BUDGET, false)?;
    let [first, second] = ending.unexplained.as_slice() else {
        return Err(Fail::new("there are not two granules"));
    };
    let found = (first.final_word, second.granule, second.final_word);
    assert_same(&rt, found, (None, GRANULE + 1, Some(3)));
    assert_whole(&rt, &second.reach, &[0])?;
    let stop = Stop {
        time: 4,
        opcode: 0x04,
        starts: &[2, 3],
        words: &[0, 5],
        blamed: 3,
        before: &[],
        open: &[2, 3],
        legal: &[0, 5],
    };
    assert_stops(&rt, "at_the_end", &first.reach, stop)
}

// Within no states it is not found how far.
#[test]
fn no_budget(rt: HostRuntime) -> Result<(), Fail> {
    let mut watch = Watch::new(rt.alloc(), 16)?;
    let events = [
        Told::Write(1, 5),
        Told::Done(1),
        Told::Read(2),
        Told::Answer(2, 0),
    ];
    take_all(rt.alloc(), &mut watch, &events)?;
    assert_undecided(&rt, &watch, GRANULE, 0)
}
