//! The growths of a list of lines: how many lines it has where each growth is refused.

ghost use Rattle.chi_samples.specs.Opened.{IsOfEight};

use crate::tests::comparison::assert_same;
use crate::tests::growth_tests::{Call, call_on_book, call_on_lock};
use crate::tests::growth_work_tests::FETCH_ADD;
use crate::tests::refusing_allocator::Refusing;
use chi_fields::Request;
use chi_history::{Home, Line};
use chi_lanes::Reply;
use chi_requester::{Policy, run_serial};
use chi_samples::{additions, first_lane};
use std::process::Abort;
use std::sync::Wait;
use std::test::Fail;

// The number of a growth, and how many lines there are before it: the list has room for 4 at first, and then for
// twice as many, each time that there is no room for two more. There is no sixth growth.
const LINES: [(u64, usize); 6] = [(1, 0), (2, 3), (3, 7), (4, 15), (5, 31), (6, 40)];

// Whether each line completes the request in its place with the number of the lines before it.
fn are_counted(lines: &[Line], requests: &[Request]) -> bool {
    let mut before = 0;
    for (line, request) in lines.iter().zip(requests) {
        if *line != Line::Completed(*request, Reply::CompData(first_lane(before))) {
            return false;
        }
        before = before.saturating_add(1);
    }
    true
}

// Asserts that so many lines are left, as counted, and that as much was added. `found` is whether all requests were
// executed, whether a growth was refused, how many lines there are, and whether they are counted.
fn assert_left<H: Home, T: Abort + Wait>(
    rt: &T,
    home: &H,
    seat: &mut H::Seat,
    count: usize,
    found: (bool, bool, usize, bool),
)
    requires opened { IsOfEight (H.belongs home.now seat.old) (H.held seat.old) (H.opening home.now) }
{
    let mut words = [0; 8];
    home.snapshot(rt, seat, &mut words);
    assert_same(
        &rt,
        (found, words),
        (
            (count == 40, count < 40, count, true),
            [count as u64, 0, 0, 0, 0, 0, 0, 0],
        ),
    );
}

// Executes the first fetch-add forty times with the growth of this number refused: so many lines are left, each with
// the number of those before it, and as much was added. Answers whether the growth was refused.
pub(crate) fn add_forty<H: Home, T: AllocGlobal + Abort + Wait>(
    rt: &T,
    home: &H,
    seat: &mut H::Seat,
    number: u64,
    count: usize,
) -> Result<bool, Fail>
    requires opened { IsOfEight (H.belongs home.now seat.old) (H.held seat.old) (H.opening home.now) }
{
    let script = additions(rt, FETCH_ADD, &[0], 40, 7)?;
    let requests = script.requests();
    let alloc = Refusing::new(rt.alloc(), number);
    let mut lines = Vec::new(&alloc);
    let outcome = run_serial(home, rt, seat, requests, Policy::Resend, &mut lines);
    let has_refused = alloc.has_refused();
    let are_counted = are_counted(lines.as_slice(), requests);
    let found = (outcome.is_ok(), has_refused, lines.len(), are_counted);
    assert_left(rt, home, seat, count, found);
    Ok(has_refused)
}

#[test]
fn growth_refused_in_forty_requests(rt: HostRuntime) -> Result<(), Fail> {
    for (number, count) in LINES {
        call_on_lock(&rt, Call::Forty(count), number)?;
        call_on_book(&rt, Call::Forty(count), number)?;
    }
    Ok(())
}
