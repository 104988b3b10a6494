//! The operations and the refusals that lines tell.

use crate::tests::comparison::assert_same;
use crate::tests::events::{FIVE, LAST, READ, UNKNOWN, WRITE, WRITE_AT_FOUR, joined};
use chi_events::EventFault;
use chi_fields::Refusal;
use chi_json::ObjectFault;
use chi_reading::LineFault;
use chi_watch::WatchFault;
use chi_watch_text::{LineFormat, LinesFault, OperationsTold, TellingFault, read_operations};
use std::alloc::Global;
use std::test::Fail;

// The completion of the read that is taken at time 3, after the write that is taken at time 4 has ended.
const FIVE_AT_SIX: &str =
    "{\"time\":6,\"event\":\"reply\",\"id\":2,\"reply\":\"05000000000000000000000000000000\"}
";

// A read that is not answered, and a request that is dropped.
const OPEN_AND_DROPPED: &str =
    "{\"time\":7,\"event\":\"request\",\"id\":3,\"src\":1,\"txn\":3,\"op\":4,\"size\":3,\"addr\":4104,\"endian\":0}
{\"time\":8,\"event\":\"request\",\"id\":4,\"src\":1,\"txn\":4,\"op\":4,\"size\":3,\"addr\":4104,\"endian\":0}
{\"time\":9,\"event\":\"dropped\",\"id\":4}
";

// A write whose data have not come.
const WITHOUT_DATA: &str =
    "{\"time\":9,\"event\":\"request\",\"id\":5,\"src\":1,\"txn\":5,\"op\":28,\"size\":3,\"addr\":4104,\"endian\":0}
";

// Three requests that a home refuses: one at 4105 without a reason, one with the reason of another region, and one whose reason
// is not known.
const REFUSED: &str =
    "{\"time\":9,\"event\":\"request\",\"id\":6,\"src\":1,\"txn\":6,\"op\":4,\"size\":3,\"addr\":4105,\"endian\":0}
{\"time\":9,\"event\":\"request\",\"id\":7,\"src\":1,\"txn\":7,\"op\":4,\"size\":3,\"addr\":4104,\"endian\":0}
{\"time\":9,\"event\":\"request\",\"id\":8,\"src\":1,\"txn\":8,\"op\":4,\"size\":3,\"addr\":4104,\"endian\":0}
{\"time\":9,\"event\":\"refused\",\"id\":8}
{\"time\":9,\"event\":\"refused\",\"id\":7,\"reason\":\"OutOfRegion\"}
{\"time\":9,\"event\":\"refused\",\"id\":6}
";

// A request that a home would refuse, which is outstanding at the end.
const MISALIGNED: &str =
    "{\"time\":9,\"event\":\"request\",\"id\":9,\"src\":1,\"txn\":9,\"op\":4,\"size\":3,\"addr\":4105,\"endian\":0}
";

// The operations of texts one after the other, and the refusals.
fn operations(alloc: Global, texts: &[&str]) -> Result<OperationsTold, LinesFault> {
    let all = joined(alloc, texts)?;
    let mut from = all.as_slice();
    read_operations(alloc, &mut from, LineFormat::Events)
}

// They stand by their starts, though the write ends first. Of what is told of words nothing is an operation.
#[test]
fn operations_by_their_starts(rt: HostRuntime) -> Result<(), Fail> {
    let told = operations(
        rt.alloc(),
        &[
            READ,
            WRITE_AT_FOUR,
            FIVE_AT_SIX,
            OPEN_AND_DROPPED,
            WITHOUT_DATA,
            REFUSED,
            MISALIGNED,
            LAST,
            UNKNOWN,
        ],
    )?;
    let times: Vec<(u64, u64, u16)> = told
        .operations
        .iter()
        .map(|op| (op.start, op.end, op.src))
        .collect(rt.alloc())?;
    let wanted = [(3, 6, 0), (4, 5, 0), (7, u64::MAX, 1)];
    assert_same(&rt, times.as_slice(), wanted.as_slice());
    let reasons = [Refusal::OutOfRegion, Refusal::Misaligned];
    assert_same(&rt, told.refusals.as_slice(), reasons.as_slice());
    Ok(())
}

#[test]
fn lines_that_tell_no_operations(rt: HostRuntime) -> Result<(), Fail> {
    for (texts, wanted) in &[
        ([].as_slice(), Ok(0)),
        (&[WRITE, READ, FIVE], Ok(2)),
        (
            &[WRITE, "no event\n"],
            Err(LinesFault::Line {
                number: 3,
                fault: TellingFault::Event(LineFault::Object(ObjectFault::NotJson)),
            }),
        ),
        (
            &[READ, WRITE],
            Err(LinesFault::Event {
                number: 2,
                fault: WatchFault::Event(EventFault::TimeFalls),
            }),
        ),
    ] {
        let found = operations(rt.alloc(), texts).map(|told| told.operations.len());
        assert_same(&rt, (texts.len(), found), (texts.len(), *wanted));
    }
    Ok(())
}
