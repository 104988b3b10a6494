//! Both stores opened on an image that is not zeros.

ghost use Rattle.std.specs.Prelude.{◌≡◌};
ghost use Rattle.chi_samples.specs.Opened.{IsOfEight};

use crate::tests::both_stores::{Call, call_on_both};
use crate::tests::comparison::assert_same;
use chi_fields::Request;
use chi_history::{Home, Line};
use chi_lanes::Reply;
use chi_requester::{Policy, run_serial};
use chi_samples::{first_lane, plain_request};
use std::process::Abort;
use std::sync::Wait;
use std::test::Fail;

// The words of an image: the first has each byte ff, the second the bytes 00, 11, 22 to 77.
const IMAGE: [u64; 8] = [u64::MAX, 0x7766_5544_3322_1100, 0, 0, 0, 0, 0, 1];

// An addition of 1 to the first eight bytes, which returns them.
fn fetch_add() -> Request
    ensures { result.src ≡ 0 }
{
    Request {
        txn: 1,
        ..plain_request(0x30, 3, 0x1000, 0x00ff, first_lane(1))
    }
}

// The only line, where there is one.
fn only(lines: &[Line]) -> Option<Line> {
    match lines {
        [line] => Some(*line),
        _ => None,
    }
}

// The home begins as the image, and an addition works on it.
pub(crate) fn assert_begins<H: Home, T: AllocGlobal + Abort + Wait>(
    rt: &T,
    home: &H,
    seat: &mut H::Seat,
)
    requires opened { IsOfEight (H.belongs home.now seat.old) (H.held seat.old) (H.opening home.now) }
{
    let mut first = [0; 8];
    home.snapshot(rt, seat, &mut first);
    let requests = [fetch_add()];
    let mut lines = Vec::new(rt.alloc());
    let outcome = run_serial(home, rt, seat, &requests, Policy::Resend, &mut lines);
    let line = only(lines.as_slice());
    let mut last = [0; 8];
    home.snapshot(rt, seat, &mut last);
    let f = 0xff;
    let before = Reply::CompData([f, f, f, f, f, f, f, f, 0, 0, 0, 0, 0, 0, 0, 0]);
    let mut after = IMAGE;
    after[0] = 0;
    assert_same(
        &rt,
        (outcome.is_ok(), first, line, last),
        (
            true,
            IMAGE,
            Some(Line::Completed(fetch_add(), before)),
            after,
        ),
    );
}

#[test]
fn opening_image_by_call(rt: HostRuntime) -> Result<(), Fail> {
    call_on_both(&rt, &IMAGE, Call::Begins)
}
