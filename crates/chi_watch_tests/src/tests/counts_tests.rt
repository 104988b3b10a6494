//! How much was told.

use crate::tests::comparison::assert_same;
use crate::tests::home::{Told, take};
use chi_watch::{Counts, Watch};
use std::process::Abort;
use std::test::Fail;

// An event at a time, and after it how many operations ended, requests are outstanding and granules are told of, and how many bytes are
// not judged.
type Step = (u64, Told, (u64, usize, usize), u64);

// Compares these counts after each event.
fn assert_counts<R: AllocGlobal + Abort>(rt: &R, events: &[Step]) -> Result<(), Fail> {
    let mut watch = Watch::new(rt.alloc(), 16)?;
    for (time, told, (ended, outstanding, granules), unjudged) in events {
        take(rt.alloc(), &mut watch, *time, *told)?;
        let wanted = Counts {
            ended: *ended,
            outstanding: *outstanding,
            granules: *granules,
        };
        assert_same(
            rt,
            (*time, watch.counts(), watch.unjudged()),
            (*time, wanted, *unjudged),
        );
    }
    Ok(())
}

// What is not told may have written to bytes 4119 and 4120, which are of the granules at 4112 and 4120, and later to the first
// byte of the granule at 4096, which was told of before.
static HANDFUL: [Step; 10] = [
    (1, Told::Word(0), (0, 0, 1), 0),
    (2, Told::Write(1, 5), (0, 1, 1), 0),
    (3, Told::Done(1), (1, 0, 1), 0),
    (4, Told::Read(2), (1, 1, 1), 0),
    (5, Told::ReadNext(3), (1, 2, 2), 0),
    (6, Told::Unknown(4119, 2), (1, 2, 4), 2),
    (7, Told::Answer(2, 5), (2, 1, 4), 2),
    (8, Told::Dropped(3), (2, 0, 4), 2),
    (9, Told::Unknown(4096, 1), (2, 0, 4), 3),
    (10, Told::End, (2, 0, 4), 3),
];

#[test]
fn a_handful_of_events(rt: HostRuntime) -> Result<(), Fail> {
    assert_counts(&rt, &HANDFUL)
}

// An event that cannot be taken is not counted.
#[test]
fn an_event_that_is_not_taken(rt: HostRuntime) -> Result<(), Fail> {
    let mut watch = Watch::new(rt.alloc(), 16)?;
    take(rt.alloc(), &mut watch, 1, Told::Write(1, 5))?;
    let fault = take(rt.alloc(), &mut watch, 2, Told::ReadNext(1)).err();
    let counts = watch.counts();
    assert_same(
        &rt,
        (
            fault.is_some(),
            counts.ended,
            counts.outstanding,
            counts.granules,
            watch.unjudged(),
        ),
        (true, 0, 1, 1, 0),
    );
    Ok(())
}
