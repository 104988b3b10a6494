//! What races of two and of four did over both stores is explained, and no longer once a reply is changed.

ghost use Rattle.std.specs.Prelude.{◌≡◌, ◌≤◌, true};
ghost use Rattle.chi_history.specs.NumberSets.{below};

use crate::tests::clock_gate::{Pauses, observe, observe_after};
use crate::tests::comparison::assert_same;
use crate::tests::race_scripts::{race_of_four, race_of_two};
use chi_bookstore::BookStore;
use chi_fields::Region;
use chi_history::{Home, Line};
use chi_lanes::Reply;
use chi_lockstore::LockStore;
use chi_requester::{Policy, Race, RaceFour, race_four, race_two};
use chi_search::NoProgress;
use chi_trace::{GranuleWord, GranuleWords, Operation, Trace};
use chi_verdict::{Verdict, explain};
use std::alloc::Global;
use std::process::Abort;
use std::sync::Wait;
use std::sync::atomic::{AtomicU64, Ordering};
use std::test::Fail;
use std::thread::Threads;

// The words at the opening: the script's image.
const IMAGE: [u64; 2] = [7, 0x0105];

// The words of the two granules.
fn granule_words(alloc: Global, words: &[u64; 2]) -> Result<GranuleWords, Fail> {
    let mut list = Vec::new(alloc);
    list.push(GranuleWord {
        granule: 0x1000 / 8,
        word: words[0],
    })?;
    list.push(GranuleWord {
        granule: 0x1008 / 8,
        word: words[1],
    })?;
    Ok(GranuleWords::new(list).ok_or("the granules are not in order")?)
}

// What is found of the operations, from the image to these words.
fn verdict(alloc: Global, words: &[u64; 2], ops: &[Operation]) -> Result<Verdict, Fail> {
    let opening = granule_words(alloc, &IMAGE)?;
    let final_words = granule_words(alloc, words)?;
    let trace = Trace::new(opening, Vec::from_slice(alloc, ops)?).ok_or(
        "the operations are not those of a trace",
    )?;
    Ok(explain(alloc, &trace, &final_words, 1_000_000, &mut NoProgress)?)
}

// The data with the highest bit of the operand's first byte turned.
fn changed(lanes: [u8; 16], addr: u64) -> Reply {
    let mut lanes = lanes;
    if addr % 16 < 8 {
        lanes[0] ^= 0x80;
    } else {
        lanes[8] ^= 0x80;
    }
    Reply::CompData(lanes)
}

// The operations are explained, and with any one reply changed no order explains them.
fn assert_explained<T: AllocGlobal + Abort>(
    rt: &T,
    words: &[u64; 2],
    ops: &[Operation],
) -> Result<(), Fail> {
    let alloc = rt.alloc();
    assert!(rt; matches!(verdict(alloc, words, ops)?, Verdict::Explained(_)));
    for place in 0..ops.len() {
        let op = ops[place];
        if let Some(Reply::CompData(lanes)) = op.reply {
            let mut broken = Vec::from_slice(alloc, ops)?;
            broken[place].reply = Some(changed(lanes, op.access.addr()));
            let found = verdict(alloc, words, &broken)?;
            assert!(rt; matches!(found, Verdict::Unexplained { granule: _ }));
        }
    }
    Ok(())
}

// The operations of a race that has ended, of its workers by their pauses and of 0 after them, in the order of their starts.
fn operations<T: AllocGlobal>(
    rt: &T,
    workers: &[(&[Line], &Pauses)],
    zero: &[Line],
    clock: &AtomicU64,
) -> Result<Vec<Operation>, Fail> {
    let end = clock.load(Ordering::SeqCst);
    let region = Region::new(0x1000, 2)?;
    let mut ops = Vec::new(rt.alloc());
    for (lines, pauses) in workers {
        observe(&region, lines, pauses, end, &mut ops)?;
    }
    observe_after(&region, zero, end, &mut ops)?;
    ops.sort_by_key(|op| op.start)?;
    Ok(ops)
}

// So many operations are there, and explained with the words that a seat of all numbers finds.
fn assert_race<H: Home, T: AllocGlobal + Abort + Wait>(
    rt: &T,
    home: &H,
    seat: &mut H::Seat,
    ops: &[Operation],
    count: usize,
) -> Result<(), Fail>
    requires own { H.belongs home.now seat.old }
    requires all { H.held seat.old ≡ below (H.opening home.now).requesters }
    requires granules { (H.opening home.now).region.granules ≡ 2 }
{
    let mut words = [0; 2];
    home.snapshot(rt, seat, &mut words);
    assert_same(&rt, ops.len(), count);
    assert_explained(rt, &words, ops)
}

// Four operations by each of 1 and 2, or of 1 to 4, and a read by 0.
fn assert_race_explained<H: Home + Sync, T: AllocGlobal + Abort + Threads + Wait + Sync>(
    rt: &T,
    home: &H,
    seat: &mut H::Seat,
    are_four: bool,
) -> Result<(), Fail>
    requires own { H.belongs home.now seat.old }
    requires all { H.held seat.old ≡ below (H.opening home.now).requesters }
    requires three { 3 ≤ (H.opening home.now).requesters }
    requires five { are_four ≡ true → 5 ≤ (H.opening home.now).requesters }
    requires granules { (H.opening home.now).region.granules ≡ 2 }
{
    let clock = AtomicU64::new(1);
    let (one, two, three, four) = (Pauses::new(), Pauses::new(), Pauses::new(), Pauses::new());
    let (gate1, gate2) = (one.gate(&clock), two.gate(&clock));
    let policy = Policy::Resend;
    if are_four {
        let script = race_of_four(rt)?;
        let requests = script.requests();
        let (gate3, gate4) = (three.gate(&clock), four.gate(&clock));
        let mut race = RaceFour::new(rt.alloc());
        race_four(
            home, rt, seat, requests, policy, gate1, gate2, gate3, gate4, &mut race,
        )?;
        let workers = [
            (race.one.as_slice(), &one),
            (race.two.as_slice(), &two),
            (race.three.as_slice(), &three),
            (race.four.as_slice(), &four),
        ];
        let ops = operations(rt, &workers, &race.zero, &clock)?;
        return assert_race(rt, home, seat, &ops, 17);
    }
    let script = race_of_two(rt)?;
    let requests = script.requests();
    let mut race = Race::new(rt.alloc());
    race_two(home, rt, seat, requests, policy, gate1, gate2, &mut race)?;
    let workers = [(race.one.as_slice(), &one), (race.two.as_slice(), &two)];
    let ops = operations(rt, &workers, &race.zero, &clock)?;
    assert_race(rt, home, seat, &ops, 9)
}

// The race over both stores, each opened for so many requesters.
fn assert_both_explained<T: AllocGlobal + Abort + Threads + Wait + Sync>(
    rt: &T,
    requesters: u8,
    are_four: bool,
) -> Result<(), Fail>
    requires three { 3 ≤ requesters }
    requires five { are_four ≡ true → 5 ≤ requesters }
{
    let region = Region::new(0x1000, 2)?;
    let (home, mut seat) = LockStore::open(rt.alloc(), region, requesters, &IMAGE)?;
    assert_race_explained(rt, &home, &mut seat, are_four)?;
    let (home, mut seat) = BookStore::open(rt.alloc(), region, requesters, 4, &IMAGE)?;
    assert_race_explained(rt, &home, &mut seat, are_four)
}

#[test]
fn race_of_two_is_explained(rt: HostRuntime) -> Result<(), Fail> {
    assert_both_explained(&rt, 3, false)
}

#[test]
fn race_of_four_is_explained(rt: HostRuntime) -> Result<(), Fail> {
    assert_both_explained(&rt, 5, true)
}
