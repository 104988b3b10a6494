//! Requests that are still open.

use super::home::{ENABLES, LANES, OLD, Told, after, assert_load};
use crate::tests::comparison::assert_same;
use chi_events::Outstanding;
use chi_lanes::Reply;
use std::test::Fail;

// Before any event.
#[test]
fn none_is_outstanding(rt: HostRuntime) -> Result<(), Fail> {
    let outstanding = Outstanding::new(rt.alloc())?;
    assert_same(&rt, outstanding.count(), 0);
    Ok(())
}

// With its data a request may have taken effect, at any time from its start on.
#[test]
fn open_with_data(rt: HostRuntime) -> Result<(), Fail> {
    let events = [
        (10, Told::Load(3)),
        (11, Told::LoadAlone(4)),
        (12, Told::Data(4, ENABLES)),
    ];
    let outstanding = after(rt.alloc(), &events)?;
    let requests = outstanding.requests(rt.alloc())?;
    let [first, second] = requests.as_slice() else {
        return Err(Fail::new("there are not two requests"));
    };
    assert_load(&rt, "first", first.operation(), (10, u64::MAX), None);
    assert_load(&rt, "second", second.operation(), (11, u64::MAX), None);
    assert_same(&rt, first.completion, None);
    Ok(())
}

// Before its data have come it has taken no effect, whether or not its completion has left.
#[test]
fn open_without_data(rt: HostRuntime) -> Result<(), Fail> {
    let events = [(10, Told::LoadAlone(3)), (11, Told::Answer(3))];
    for (count, completion) in [(1, None), (2, Some(Some(Reply::CompData(OLD))))] {
        let outstanding = after(rt.alloc(), &events[..count])?;
        let requests = outstanding.requests(rt.alloc())?;
        let [request] = requests.as_slice() else {
            return Err(Fail::new("there is not one request"));
        };
        assert_same(
            &rt,
            (count, request.operation().is_none(), request.completion),
            (count, true, completion),
        );
    }
    Ok(())
}

// What an outstanding request is, as it was taken.
#[test]
fn request_as_it_was_asked(rt: HostRuntime) -> Result<(), Fail> {
    let events = [(10, Told::Load(3)), (10, Told::Read(7, 4100))];
    let outstanding = after(rt.alloc(), &events)?;
    let requests = outstanding.requests(rt.alloc())?;
    let [load, read] = requests.as_slice() else {
        return Err(Fail::new("there are not two requests"));
    };
    let fields = load.fields;
    let numbers = (load.id, load.start, fields.src, fields.txn);
    assert_same(&rt, numbers, (3, 10, 513, 9));
    let what = (fields.opcode, fields.size, fields.addr);
    let lanes = fields.lanes;
    assert_same(
        &rt,
        (what, fields.be, lanes),
        ((0x30, 3, 4104), ENABLES, LANES),
    );
    let fields = read.fields;
    assert_same(
        &rt,
        (read.id, read.start, fields.src, fields.txn, fields.endian),
        (7, 10, 2, 65535, true),
    );
    Ok(())
}
