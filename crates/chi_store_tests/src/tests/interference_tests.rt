//! A requester in whose tries another requester's calls come between.

ghost use Rattle.std.specs.Prelude.{◌≡◌, IsTrue};
ghost use Rattle.chi_fields.specs.Extent.{lies_in};

use crate::tests::comparison::assert_same;
use crate::tests::interferer::{
    Interferer, accepted, add_of_one, first_granule, kept, one_byte, opened, request,
};
use chi_bookstore::{BookSeat, BookStore};
use chi_fields::{Access, Request};
use chi_history::{Credit, Home, Served};
use chi_lanes::Reply;
use chi_requester::Policy;
use std::process::Abort;
use std::sync::Wait;
use std::test::Fail;

// The numbers of sixteen tries.
const IN_ORDER: [u8; 16] = [1, 2, 3, 4, 5, 6, 7, 8, 9, 10, 11, 12, 13, 14, 15, 16];

// What came of requester 0's fetch-add between requester 1's calls: the reply where an exchange won, how many
// tries were lost, the pauses and the numbers of their tries, how many calls were done, what came of the credit, and
// the granule after it.
#[derive(Clone, Copy, Debug, PartialEq)]
struct Attempt {
    reply: Option<Reply>,
    lost: u8,
    pauses: usize,
    tries: [u8; 16],
    done: u8,
    credited: Option<(u8, [Reply; 2])>,
    after: Reply,
}

// Follows the policy after RetryAck. Where the credit is spent: the requester that it is of, the first granule before
// it, and the data.
fn followed<T: Abort + Wait>(
    rt: &T,
    home: &BookStore,
    seat: &mut BookSeat,
    credit: Credit,
    fetch: &Access,
    policy: Policy,
) -> Option<(u8, [Reply; 2])>
    requires own { ⟦<BookStore as Home>⟧.belongs home.now seat.old }
    requires fits { IsTrue (lies_in fetch.now.addr fetch.now.len home.now.values.region) }
    ensures own { ⟦<BookStore as Home>⟧.belongs home.now seat.new }
{
    match policy {
        Policy::Resend => {
            let src = credit.src();
            let before = first_granule(rt, home, seat);
            assert!(rt; home.holds(seat, src));
            let reply = home.serve_credited(rt, seat, credit, fetch);
            Some((src, [before, reply]))
        }
        Policy::Return => {
            home.return_credit(credit);
            None
        }
    }
}

// One fetch-add with so many tries, where requester 1 calls at so many pauses.
fn attempted<T: AllocGlobal + Abort + Wait>(
    rt: &T,
    attempts: u8,
    policy: Policy,
    changes: u8,
    first: Access,
    second: Option<Access>,
) -> Result<Attempt, Fail> {
    let (home, mut seat, other, fetch) = opened(rt, attempts)?;
    let mut gate = Interferer::new(&home, other, changes, first, second);
    assert!(rt; home.holds(&seat, 0));
    let (reply, lost, credited) = match home.attempt_gated(&mut seat, 0, &fetch, &mut gate) {
        Served::Done { reply, lost } => (Some(reply), lost, None),
        Served::Retry { credit, lost } => {
            let credited = followed(rt, &home, &mut seat, credit, &fetch, policy);
            (None, lost, credited)
        }
    };
    let after = first_granule(rt, &home, &mut seat);
    Ok(Attempt {
        reply,
        lost,
        pauses: gate.pauses,
        tries: gate.tries,
        done: gate.done,
        credited,
        after,
    })
}

// With so many tries, all of which are lost: the granule after them, which is the data on the credit, and the granule
// then.
fn assert_interference<T: AllocGlobal + Abort + Wait>(
    rt: &T,
    attempts: u8,
    tries: &[u8],
    after: u8,
    at_last: u8,
) -> Result<(), Fail> {
    let add = accepted(rt, &add_of_one());
    let want = Attempt {
        reply: None,
        lost: attempts,
        pauses: tries.len(),
        tries: kept(tries),
        done: attempts,
        credited: Some((0, [one_byte(after), one_byte(after)])),
        after: one_byte(at_last),
    };
    let found = attempted(rt, attempts, Policy::Resend, u8::MAX, add, None)?;
    assert_same(&rt, found, want);
    Ok(())
}

#[test]
fn interference_at_each_pause(rt: HostRuntime) -> Result<(), Fail> {
    assert_interference(&rt, 1, &IN_ORDER[..1], 0x01, 0x06)?;
    assert_interference(&rt, 2, &IN_ORDER[..2], 0x02, 0x07)?;
    assert_interference(&rt, 16, &IN_ORDER, 0x10, 0x15)
}

#[test]
fn lost_tries_counted(rt: HostRuntime) -> Result<(), Fail> {
    let add = accepted(&rt, &add_of_one());
    for changes in 0..17 {
        let want = if changes < 16 {
            let tries = &IN_ORDER[..usize::from(changes) + 1];
            Attempt {
                reply: Some(one_byte(changes)),
                lost: changes,
                pauses: tries.len(),
                tries: kept(tries),
                done: changes,
                credited: None,
                after: one_byte(changes + 5),
            }
        } else {
            Attempt {
                reply: None,
                lost: 16,
                pauses: 16,
                tries: IN_ORDER,
                done: changes,
                credited: None,
                after: one_byte(16),
            }
        };
        let found = attempted(&rt, 16, Policy::Return, changes, add, None)?;
        assert_same(&rt, (changes, found), (changes, want));
    }
    Ok(())
}

// With one try, and these calls of requester 1 before its exchange: the exchange wins.
fn assert_no_interference<T: AllocGlobal + Abort + Wait>(
    rt: &T,
    first: Access,
    second: Option<Access>,
    calls: u8,
) -> Result<(), Fail> {
    let want = Attempt {
        reply: Some(one_byte(0)),
        lost: 0,
        pauses: 1,
        tries: kept(&[1]),
        done: calls,
        credited: None,
        after: one_byte(5),
    };
    let found = attempted(rt, 1, Policy::Return, u8::MAX, first, second)?;
    assert_same(&rt, found, want);
    Ok(())
}

#[test]
fn other_calls_are_no_interference(rt: HostRuntime) -> Result<(), Fail> {
    let mut lanes = [0; 16];
    lanes[8] = 1;
    let add_at_next = Request {
        addr: 0x1008,
        be: 0xff00,
        lanes,
        ..add_of_one()
    };
    let take_one = Request {
        lanes: [0xff; 16],
        ..add_of_one()
    };
    let add_at_next = accepted(&rt, &add_at_next);
    let read = accepted(&rt, &request(1, 0x04, 0, 0));
    let xor_of_zero = accepted(&rt, &request(1, 0x2e, 0x00ff, 0));
    let add = accepted(&rt, &add_of_one());
    let take_one = accepted(&rt, &take_one);
    assert_no_interference(&rt, add_at_next, None, 1)?;
    assert_no_interference(&rt, read, None, 1)?;
    assert_no_interference(&rt, xor_of_zero, None, 1)?;
    assert_no_interference(&rt, add, Some(take_one), 2)
}
