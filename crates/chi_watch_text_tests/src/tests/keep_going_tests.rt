//! What is found where it keeps going.

use crate::tests::comparison::assert_same;
use crate::tests::events::{
    GOING, LAST, NINE_AND_FIVE, READ, WRITE, ZERO, at_end, places, watched,
};
use chi_watch_text::LinesFault;
use std::test::Fail;

// The granules at 4096, 4104 and 4112 have the numbers 512, 513 and 514. That of 4096 is found by line 4, and by line 8 again.
#[test]
fn each_granule_at_its_first_line(rt: HostRuntime) -> Result<(), Fail> {
    let texts = [WRITE, READ, ZERO, "\n", NINE_AND_FIVE, LAST];
    let watched = watched(rt.alloc(), &texts, &GOING)?;
    let undecided = watched.ending.as_ref().map(|it| it.undecided.len());
    let places = places(rt.alloc(), &watched)?;
    let unexplained = at_end(rt.alloc(), &watched)?;
    assert_same(
        &rt,
        (places.as_slice(), unexplained.as_slice(), undecided),
        (
            [(512, 4), (513, 6)].as_slice(),
            [512, 513, 514].as_slice(),
            Some(0),
        ),
    );
    Ok(())
}

// A line that tells no event ends it. A granule that became quiet before is found once an event of a later time is told.
#[test]
fn a_fault_after_a_granule(rt: HostRuntime) -> Result<(), Fail> {
    for (texts, lines, count) in &[
        ([WRITE, READ, ZERO, "\n{\n"].as_slice(), 5, 0),
        (&[WRITE, READ, ZERO, "\n", LAST, "{\n"], 6, 1),
    ] {
        let (number, found) = match watched(rt.alloc(), texts, &GOING) {
            Ok(_) => (0, 0),
            Err(unfinished) => {
                let number = match unfinished.fault {
                    LinesFault::Line { number, .. } => number,
                    _ => 0,
                };
                (number, unfinished.found.len())
            }
        };
        assert_same(&rt, (number, found), (*lines, *count));
    }
    Ok(())
}
