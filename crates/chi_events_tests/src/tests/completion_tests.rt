//! Completions of requests that a home refuses.

use super::fault_tests::assert_text;
use super::home::{Told, after, fault};
use crate::tests::comparison::assert_same;
use chi_events::EventFault;
use chi_fields::Refusal;
use std::process::Abort;
use std::test::Fail;

// Compares the fault of a completion of this request, which a home refuses, its text, and what is left of the request.
fn assert_refused<R: AllocGlobal + Abort>(
    rt: &R,
    told: Told,
    refusal: Refusal,
    text: &str,
) -> Result<(), Fail> {
    let mut outstanding = after(rt.alloc(), &[(5, told)])?;
    let found = fault(&mut outstanding, 6, Told::Replied(9, None));
    assert_same(
        rt,
        (text, found),
        (text, Some(EventFault::Refused(refusal))),
    );
    assert_text(rt, EventFault::Refused(refusal), text)?;
    let requests = outstanding.requests(rt.alloc())?;
    let [open] = requests.as_slice() else {
        return Err(Fail::new("there is not one request"));
    };
    assert_same(
        rt,
        (text, open.refusal, open.operation().is_none()),
        (text, Some(refusal), true),
    );
    Ok(())
}

// A request, why it is refused, and the text of that.
type RefusedCase = (Told, Refusal, &'static str);

fn assert_each_refused<R: AllocGlobal + Abort>(rt: &R, cases: &[RefusedCase]) -> Result<(), Fail> {
    for (told, refusal, text) in cases {
        assert_refused(rt, *told, *refusal, text)?;
    }
    Ok(())
}

// A request that a home refuses is taken, and its completion is refused.
static REFUSED: [RefusedCase; 6] = [
    (
        Told::Request(0x05, 3, 4104, 0xff00),
        Refusal::UnknownOpcode,
        "is refused: UnknownOpcode",
    ),
    (
        Told::Request(0x30, 7, 4104, 0xff00),
        Refusal::ReservedSize,
        "is refused: ReservedSize",
    ),
    (
        Told::Request(0x30, 4, 4104, 0xff00),
        Refusal::SizeOutOfProfile,
        "is refused: SizeOutOfProfile",
    ),
    (
        Told::Request(0x30, 3, 4105, 0xff00),
        Refusal::Misaligned,
        "is refused: Misaligned",
    ),
    (
        Told::Request(0x30, 3, 4503599627370496, 0x00ff),
        Refusal::OutOfRegion,
        "is refused: OutOfRegion",
    ),
    (
        Told::Request(0x30, 3, 4104, 0xfe00),
        Refusal::BadByteEnable,
        "is refused: BadByteEnable",
    ),
];

#[test]
fn completions_of_refused_requests(rt: HostRuntime) -> Result<(), Fail> {
    assert_each_refused(&rt, &REFUSED)
}
