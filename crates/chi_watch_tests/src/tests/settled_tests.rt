//! What is found of granules that were settled, where nothing is shown of them: they are kept as their words.

use crate::tests::comparison::assert_same;
use crate::tests::home::{BUDGET, FoundCase, Told, assert_each_found, take_all};
use chi_search::NoProgress;
use chi_watch::Watch;
use std::alloc::Global;
use std::test::Fail;

// A write of 5 is settled once a read of the next granule has ended, and the granule goes on from its word. Of two writes that
// overlapped either may be the last. Where something untold may have written, what comes later is not judged until its word is told.
static SETTLED: [FoundCase; 6] = [
    (
        "a read of the word",
        &[
            Told::Write(1, 5),
            Told::Done(1),
            Told::ReadNext(2),
            Told::Answer(2, 0),
            Told::Read(3),
            Told::Answer(3, 5),
        ],
        false,
    ),
    (
        "a read of another word",
        &[
            Told::Write(1, 5),
            Told::Done(1),
            Told::ReadNext(2),
            Told::Answer(2, 0),
            Told::Read(3),
            Told::Answer(3, 0),
        ],
        true,
    ),
    (
        "an addition to the word",
        &[
            Told::Write(1, 5),
            Told::Done(1),
            Told::ReadNext(2),
            Told::Answer(2, 0),
            Told::Add(3, 2),
            Told::Answer(3, 5),
            Told::ReadNext(4),
            Told::Answer(4, 0),
            Told::Read(5),
            Told::Answer(5, 8),
        ],
        true,
    ),
    (
        "writes that overlapped, and a read of the first",
        &[
            Told::Write(1, 5),
            Told::Write(2, 6),
            Told::Done(1),
            Told::Done(2),
            Told::ReadNext(3),
            Told::Answer(3, 0),
            Told::Read(4),
            Told::Answer(4, 5),
        ],
        false,
    ),
    (
        "writes that overlapped, and reads of both",
        &[
            Told::Write(1, 5),
            Told::Write(2, 6),
            Told::Done(1),
            Told::Done(2),
            Told::ReadNext(3),
            Told::Answer(3, 0),
            Told::Read(4),
            Told::Answer(4, 5),
            Told::ReadNext(5),
            Told::Answer(5, 0),
            Told::Read(6),
            Told::Answer(6, 6),
        ],
        true,
    ),
    (
        "a word that is told again",
        &[
            Told::Write(1, 5),
            Told::Done(1),
            Told::ReadNext(2),
            Told::Answer(2, 0),
            Told::Unknown(4096, 8),
            Told::Word(7),
            Told::ReadNext(3),
            Told::Answer(3, 0),
            Told::Read(4),
            Told::Answer(4, 5),
        ],
        true,
    ),
];

#[test]
fn granules_that_were_settled(rt: HostRuntime) -> Result<(), Fail> {
    assert_each_found(&rt, &SETTLED)
}

// How many granules are not explained where a granule that was settled has this word at the end.
fn unexplained_with_word_at_the_end(alloc: Global, word: u64) -> Result<usize, Fail> {
    let events = [
        Told::Write(1, 5),
        Told::Done(1),
        Told::ReadNext(2),
        Told::Answer(2, 0),
        Told::Final(word),
        Told::End,
    ];
    let mut watch = Watch::new(alloc, 0)?;
    take_all(alloc, &mut watch, &events)?;
    let ending = watch.ending(alloc, BUDGET, &mut NoProgress)?;
    Ok(ending.unexplained.len())
}

#[test]
fn word_at_the_end_of_one_that_was_settled(rt: HostRuntime) -> Result<(), Fail> {
    assert_same(&rt, unexplained_with_word_at_the_end(rt.alloc(), 5)?, 0);
    assert_same(&rt, unexplained_with_word_at_the_end(rt.alloc(), 0)?, 1);
    Ok(())
}
