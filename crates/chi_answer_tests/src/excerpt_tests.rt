//! The text of an excerpt, worked by hand.

use crate::comparison::assert_same;
use chi_excerpt::{add_excerpt, add_order};
use chi_judge::Stop;
use chi_lanes::Reply;
use chi_search::Words;
use chi_trace::{Operation, RequestFields, access};
use std::alloc::Global;
use std::test::Fail;

// What was observed of a request of eight bytes or four.
fn row(fields: RequestFields, start: u64, end: u64, reply: Option<Reply>) -> Option<Operation> {
    let access = access(&fields, &None).ok()?;
    Some(fields.operation(access, start, end, reply))
}

// An AtomicLoad ADD of 1 to the granule at 0x1008.
fn addition(number: u64, src: u16) -> RequestFields {
    RequestFields {
        number,
        src,
        txn: 1,
        opcode: 0x30,
        size: 3,
        addr: 0x1008,
        endian: false,
        be: 0xff00,
        lanes: [0, 0, 0, 0, 0, 0, 0, 0, 1, 0, 0, 0, 0, 0, 0, 0],
    }
}

// A write of three of the four bytes at 0x100c.
fn writing() -> RequestFields {
    RequestFields {
        number: 17,
        src: 3,
        txn: 4,
        opcode: 0x1c,
        size: 2,
        addr: 0x100c,
        endian: false,
        be: 0xd000,
        lanes: [0, 0, 0, 0, 0, 0, 0, 0, 0, 0, 0, 0, 7, 8, 9, 0],
    }
}

// The first AtomicLoad answers 0, and so does the second, which is blamed: 1 would be legal. The write was open.
fn lost_addition(alloc: Global) -> Result<Option<Stop>, Fail> {
    let zero = Reply::CompData([0; 16]);
    let one = Reply::CompData([0, 0, 0, 0, 0, 0, 0, 0, 1, 0, 0, 0, 0, 0, 0, 0]);
    let (Some(first), Some(second), Some(third)) = (
        row(addition(0, 1), 0, 10, Some(zero)),
        row(addition(2, 2), 30, 40, Some(zero)),
        row(writing(), 35, u64::MAX, None),
    ) else {
        return Ok(None);
    };
    Ok(Some(Stop {
        time: 40,
        op: second,
        suspects: Vec::from_slice(alloc, &[second, first])?,
        overlapping: Vec::from_slice(alloc, &[second, third])?,
        words: Words::Unknown,
        before: Vec::from_slice(alloc, &[first])?,
        order: Vec::from_slice(alloc, &[first, third])?,
        legal: Vec::from_slice(alloc, &[one])?,
    }))
}

// From 0 to 40 a time t stands in column t * 39 / 40: 0 in 0, 10 in 9, 30 in 29, 35 in 34, 40 in 39.
const LOST_ADDITION: &str = "  the last operations of the granule, from time 0 to 40:
    request  0 |==========                              |   0 to 10  AtomicLoad.ADD  +0 L8  sent 0100000000000000  returned 0000000000000000  requester 1 txn 1
  > request  2 |                             ###########|  30 to 40  AtomicLoad.ADD  +0 L8  sent 0100000000000000  returned 0000000000000000  requester 2 txn 1
    legal would be:  returned 0100000000000000
    unlike each of these: +0 is 00
    request 17 |                                  ======|  35 on     WriteNoSnpPtl   +4 L4  sent 07--0900  no reply  requester 3 txn 4
  any one of these answers may be the wrong one: requests 2 0
";

#[test]
fn a_lost_addition(rt: HostRuntime) -> Result<(), Fail> {
    let alloc = rt.alloc();
    let Some(stop) = lost_addition(alloc)? else {
        return Err(Fail::new("a request is refused"));
    };
    let mut text = Vec::new(alloc);
    add_excerpt(alloc, &mut text, "request", &stop)?;
    assert_same(&rt, text.as_slice(), LOST_ADDITION.as_bytes());
    Ok(())
}

#[test]
fn the_order_before_a_lost_addition(rt: HostRuntime) -> Result<(), Fail> {
    let alloc = rt.alloc();
    let Some(stop) = lost_addition(alloc)? else {
        return Err(Fail::new("a request is refused"));
    };
    let mut text = Vec::new(alloc);
    add_order(
        &mut text,
        " in this order: requests",
        stop.time,
        &stop.order,
    )?;
    let wanted = "  up to 39 in this order: requests 0 17\n";
    assert_same(&rt, text.as_slice(), wanted.as_bytes());
    Ok(())
}
