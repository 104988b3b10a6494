//! What is found by lines, and where it stops.

use crate::tests::comparison::assert_same;
use crate::tests::events::{
    FIVE, LAST, READ, STOPPING, WRITE, WRITE_AT_FOUR, ZERO, places, watched,
};
use chi_events::EventFault;
use chi_json::ObjectFault;
use chi_judge::Standing;
use chi_reading::{LineFault, Member};
use chi_watch::WatchFault;
use chi_watch_text::{LinesFault, TellingFault};
use std::test::Fail;

#[test]
fn lines_that_are_explained(rt: HostRuntime) -> Result<(), Fail> {
    for texts in &[
        [].as_slice(),
        &[WRITE],
        &[WRITE, READ],
        &[WRITE, READ, FIVE],
    ] {
        let watched = watched(rt.alloc(), texts, &STOPPING)?;
        assert_same(
            &rt,
            (texts.len(), watched.verdict(), watched.ending.is_some()),
            (texts.len(), Standing::Explained, true),
        );
    }
    Ok(())
}

// The granule at address 4096 has the number 512. It is found at the first event of a later time, and what follows that is not
// read.
#[test]
fn a_lost_write(rt: HostRuntime) -> Result<(), Fail> {
    for texts in &[
        [WRITE, READ, ZERO].as_slice(),
        &[WRITE, READ, ZERO, "\n", LAST, "no event\n"],
    ] {
        let watched = watched(rt.alloc(), texts, &STOPPING)?;
        let places = places(rt.alloc(), &watched)?;
        assert_same(
            &rt,
            (texts.len(), places.as_slice(), watched.ending.is_some()),
            (texts.len(), [(512, 4)].as_slice(), false),
        );
    }
    Ok(())
}

// A write that starts as the read ends may stand before it.
#[test]
fn a_write_of_the_same_time(rt: HostRuntime) -> Result<(), Fail> {
    for (texts, wanted) in &[
        ([READ, FIVE, WRITE_AT_FOUR].as_slice(), Standing::Explained),
        (&[READ, FIVE, LAST], Standing::Unexplained),
    ] {
        let verdict = watched(rt.alloc(), texts, &STOPPING)?.verdict();
        assert_same(&rt, (texts.len(), verdict), (texts.len(), *wanted));
    }
    Ok(())
}

// Lines, the fault that they are refused for, and its text.
static FAULTS: [([&str; 2], LinesFault, &str); 6] = [
    (
        [WRITE, "{\n"],
        LinesFault::Line {
            number: 3,
            fault: TellingFault::Event(LineFault::Object(ObjectFault::NotJson)),
        },
        "line 3 is not JSON",
    ),
    (
        [WRITE, "{\"time\":3,\"event\":\"dropped\"}"],
        LinesFault::Line {
            number: 3,
            fault: TellingFault::Event(LineFault::Object(ObjectFault::Missing(Member::Id))),
        },
        "line 3 member id is missing",
    ),
    (
        ["{\"requests\":[]}\n", READ],
        LinesFault::Line {
            number: 1,
            fault: TellingFault::Event(LineFault::OfTrace),
        },
        "line 1 is of a trace, which chicheck explain reads",
    ),
    (
        ["{\n", "\"requests\": []}\n"],
        LinesFault::Line {
            number: 1,
            fault: TellingFault::Event(LineFault::NotWhole),
        },
        "line 1 is not one whole JSON object, as an event is; chicheck explain reads a trace",
    ),
    (
        [READ, WRITE],
        LinesFault::Event {
            number: 2,
            fault: WatchFault::Event(EventFault::TimeFalls),
        },
        "line 2 is earlier than the event before it",
    ),
    (
        [READ, READ],
        LinesFault::Event {
            number: 2,
            fault: WatchFault::Event(EventFault::NumberTaken),
        },
        "line 2 takes a number of an outstanding request",
    ),
];

#[test]
fn faults_and_their_texts(rt: HostRuntime) -> Result<(), Fail> {
    for (texts, fault, text) in &FAULTS {
        let found = watched(rt.alloc(), texts, &STOPPING)
            .err()
            .map(|it| it.fault);
        let told = format!(in rt.alloc(); "{fault}")?;
        assert_same(&rt, (found, told.as_str()), (Some(*fault), *text));
    }
    Ok(())
}
