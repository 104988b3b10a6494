//! The faults of an event, and their texts.

use crate::tests::comparison::assert_same;
use crate::tests::home::{Told, assert_found, take, take_all};
use chi_events::EventFault;
use chi_watch::{Watch, WatchFault};
use std::alloc::Global;
use std::process::Abort;
use std::test::Fail;

/// The fault of an event at time 9, after these.
fn fault_after(
    alloc: Global,
    events: &[Told],
    told: Told,
) -> Result<Option<WatchFault>, WatchFault> {
    let mut watch = Watch::new(alloc, 16)?;
    take_all(alloc, &mut watch, events)?;
    Ok(take(alloc, &mut watch, 9, told).err())
}

// Compares the text of a fault.
fn assert_text<R: AllocGlobal + Abort>(
    rt: &R,
    fault: WatchFault,
    wanted: &str,
) -> Result<(), Fail> {
    let shown = format!(in rt.alloc(); "{fault}")?;
    assert_same(rt, shown.as_str(), wanted);
    Ok(())
}

// Events, the one after them that cannot be taken, its fault, and the text of that.
type Case = (&'static [Told], Told, WatchFault, &'static str);

fn assert_faults<R: AllocGlobal + Abort>(rt: &R, cases: &[Case]) -> Result<(), Fail> {
    for (events, told, fault, text) in cases {
        let found = fault_after(rt.alloc(), events, *told)?;
        assert_same(rt, (*text, found), (*text, Some(*fault)));
        assert_text(rt, *fault, text)?;
    }
    Ok(())
}

static FAULTS: [Case; 7] = [
    (
        &[Told::Write(1, 5), Told::Done(1)],
        Told::Done(1),
        WatchFault::Event(EventFault::NotOutstanding),
        "is of no outstanding request",
    ),
    (
        &[Told::Write(1, 5), Told::Done(1)],
        Told::Word(1),
        WatchFault::WordLate,
        "tells a word after its granule was used",
    ),
    (
        &[Told::Unknown(4096, 8), Told::Write(1, 5)],
        Told::Word(1),
        WatchFault::WordEarly,
        "tells a word once more while a request is outstanding or no later than one ended",
    ),
    (
        &[Told::Final(5)],
        Told::Final(5),
        WatchFault::FinalTwice,
        "tells a second word at the end",
    ),
    (
        &[Told::Write(1, 5)],
        Told::Final(5),
        WatchFault::FinalEarly,
        "tells a word at the end while a request is outstanding",
    ),
    (
        &[Told::Final(5)],
        Told::Read(2),
        WatchFault::AfterFinal,
        "is a request after its granule's word at the end",
    ),
    (
        &[Told::Write(1, 5), Told::Done(1)],
        Told::Unknown(4096, 0),
        WatchFault::TooLong,
        "has no length from 1 to 4096 below 2^52",
    ),
];

#[test]
fn faults_and_their_texts(rt: HostRuntime) -> Result<(), Fail> {
    assert_faults(&rt, &FAULTS)
}

// A word may be told before the granule's first request, and after its last.
#[test]
fn words_in_time(rt: HostRuntime) -> Result<(), Fail> {
    let events = [
        Told::Word(1),
        Told::Read(1),
        Told::Answer(1, 1),
        Told::Final(1),
    ];
    assert_found(&rt, "before and after", &events, None)
}
