//! The trace that lines tell.

use crate::tests::comparison::assert_same;
use crate::tests::events::{FIVE, LAST, READ, UNKNOWN, WRITE, joined};
use chi_json::ObjectFault;
use chi_reading::{LineFault, Recorded};
use chi_watch::WatchFault;
use chi_watch_text::{LineFormat, LinesFault, TellingFault, read_events};
use std::alloc::Global;
use std::test::Fail;

// A read of a granule to which something that is not told may have written.
const READ_OF_UNKNOWN: &str =
    "{\"time\":9,\"event\":\"request\",\"id\":5,\"src\":0,\"txn\":5,\"op\":4,\"size\":3,\"addr\":4120,\"endian\":0}
";

// The trace of texts one after the other.
fn recorded(alloc: Global, texts: &[&str]) -> Result<Recorded, LinesFault> {
    let all = joined(alloc, texts)?;
    let mut from = all.as_slice();
    read_events(alloc, &mut from, LineFormat::Events)
}

// Each operation has the number of the line of its request. One that is open when something that is not told may have written there
// is of the trace.
#[test]
fn operations_and_words(rt: HostRuntime) -> Result<(), Fail> {
    let texts = [WRITE, READ, FIVE, LAST, READ_OF_UNKNOWN, UNKNOWN];
    let recorded = recorded(rt.alloc(), &texts)?;
    let times: Vec<(u64, u64, u64)> = recorded
        .trace()
        .operations()
        .iter()
        .map(|op| (op.number, op.start, op.end))
        .collect(rt.alloc())?;
    let open = (6, 9, u64::MAX);
    assert_same(
        &rt,
        times.as_slice(),
        [(1, 1, 2), (3, 3, 4), open].as_slice(),
    );
    assert_same(&rt, recorded.final_words().get(514), Some(8));
    assert_same(&rt, recorded.refusals().len(), 0);
    Ok(())
}

#[test]
fn lines_that_tell_no_trace(rt: HostRuntime) -> Result<(), Fail> {
    for (texts, wanted) in &[
        ([].as_slice(), Ok(0)),
        (&[WRITE, READ], Ok(2)),
        (
            &[WRITE, "no event\n"],
            Err(LinesFault::Line {
                number: 3,
                fault: TellingFault::Event(LineFault::Object(ObjectFault::NotJson)),
            }),
        ),
        (
            &[LAST, LAST],
            Err(LinesFault::Event {
                number: 2,
                fault: WatchFault::FinalTwice,
            }),
        ),
    ] {
        let found = recorded(rt.alloc(), texts).map(|it| it.trace().operations().len());
        assert_same(&rt, (texts.len(), found), (texts.len(), *wanted));
    }
    Ok(())
}
