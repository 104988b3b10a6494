//! What is found of a granule with many operations: open at once, or always, or one after the other.

use crate::tests::comparison::assert_same;
use crate::tests::ending_tests::assert_ending;
use crate::tests::home::{BUDGET, GRANULE, Told, assert_found, take};
use crate::tests::reach_tests::{reach, take_timed};
use crate::tests::stop::{Stop, assert_stops};
use chi_judge::Reach;
use chi_watch::{Watch, WatchFault};
use std::alloc::{AllocError, Global};
use std::test::Fail;

// Twenty additions of 1 and as many reads, all open at once, and one read more, which answers this. The others answer 0 to 19. What
// was told first ends last, so that nothing can be forgotten before.
fn additions_and_reads(alloc: Global, last: u16) -> Result<Vec<Told>, AllocError> {
    let mut events = Vec::new(alloc);
    for number in 0..20 {
        events.push(Told::StoreAdd(1 + number, 1))?;
        events.push(Told::Read(21 + number))?;
    }
    events.push(Told::Read(41))?;
    events.push(Told::Answer(41, last))?;
    for number in 0..20_u16 {
        events.push(Told::Answer(40 - u64::from(number), 19 - number))?;
        events.push(Told::Done(20 - u64::from(number)))?;
    }
    Ok(events)
}

#[test]
fn reads_among_additions(rt: HostRuntime) -> Result<(), Fail> {
    let events = additions_and_reads(rt.alloc(), 20)?;
    assert_found(&rt, "20", &events, None)?;
    assert_ending(&rt, "20", &events, BUDGET, &[], &[])
}

#[test]
fn read_of_a_sum_that_is_never_there(rt: HostRuntime) -> Result<(), Fail> {
    let events = additions_and_reads(rt.alloc(), 21)?;
    assert_found(&rt, "21", &events, Some(GRANULE))
}

// Two thousand additions of 1, of which four are open always: one is answered, and then the next is taken. From this one on each
// answers one less than it should. The number of the one by whose answer the granule is found, and whether it is said then where it
// stops being explained.
fn four_open(alloc: Global, lost: u16) -> Result<Option<(u16, bool)>, Fail> {
    let mut watch = Watch::new(alloc, 16)?;
    for id in 0..4 {
        take(alloc, &mut watch, id, Told::Add(id, 1))?;
    }
    for number in 0..2000_u16 {
        let id = u64::from(number);
        let sum = if number < lost {
            number
        } else {
            number.saturating_sub(1)
        };
        let found = take(alloc, &mut watch, 2 * id + 4, Told::Answer(id, sum))?;
        if let Some(granule) = found {
            let reach = reach(alloc, &watch, granule, BUDGET)?;
            return Ok(Some((number, matches!(reach, Reach::Stops(_)))));
        }
        take(alloc, &mut watch, 2 * id + 5, Told::Add(id + 4, 1))?;
    }
    Ok(None)
}

// A granule that is never quiet is found soon after an update was lost, and one that is right is not.
#[test]
fn lost_update_of_a_granule_that_is_never_quiet(rt: HostRuntime) -> Result<(), Fail> {
    let Some((found, stops)) = four_open(rt.alloc(), 500)? else {
        return Err(Fail::new("the granule was not found"));
    };
    assert_same(&rt, (500 <= found && found < 700, stops), (true, true));
    assert_same(&rt, four_open(rt.alloc(), 2000)?, None);
    Ok(())
}

// Tells a word, and then two hundred additions of 1 that come one after the other.
fn take_two_hundred(alloc: Global, watch: &mut Watch) -> Result<(), WatchFault> {
    take(alloc, watch, 0, Told::Word(0))?;
    for number in 0..200_u16 {
        let id = u64::from(number);
        take(alloc, watch, 2 * id + 1, Told::Add(id, 1))?;
        take(alloc, watch, 2 * id + 2, Told::Answer(id, number))?;
    }
    Ok(())
}

// Tells an addition that is open while a read answers 7, forty that are not seen to answer, and the end of the first.
fn take_a_wrong_read(alloc: Global, watch: &mut Watch) -> Result<(), WatchFault> {
    let events = [
        (401, Told::Add(1000, 1)),
        (402, Told::Read(1001)),
        (403, Told::Answer(1001, 7)),
    ];
    take_timed(alloc, watch, &events)?;
    for number in 0..40 {
        take(alloc, watch, 404 + number, Told::Add(number, 1))?;
        take(alloc, watch, 404 + number, Told::Failed(number))?;
    }
    take(alloc, watch, 500, Told::Answer(1000, 200))?;
    Ok(())
}

// A word is told at 0. Two hundred additions of 1 come one after the other; the last sixteen start at 369, 371 and so on to 399.
// The addition that starts at 401 is open while the read that starts at 402 answers 7 in place of 200 or 201. Forty requests whose
// identifiers were used before are not seen to answer after it: it is the read that is named.
#[test]
fn after_many(rt: HostRuntime) -> Result<(), Fail> {
    let mut watch = Watch::new(rt.alloc(), 16)?;
    take_two_hundred(rt.alloc(), &mut watch)?;
    take_a_wrong_read(rt.alloc(), &mut watch)?;
    let reach = reach(rt.alloc(), &watch, GRANULE, BUDGET)?;
    let stop = Stop {
        time: 403,
        opcode: 0x04,
        starts: &[401, 402],
        words: &[200, 201],
        blamed: 402,
        before: &[
            369, 371, 373, 375, 377, 379, 381, 383, 385, 387, 389, 391, 393, 395, 397, 399,
        ],
        open: &[401, 402],
        legal: &[200, 201],
    };
    assert_stops(&rt, "after_many", &reach, stop)
}
