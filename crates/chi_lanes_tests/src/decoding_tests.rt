//! Tests of decoding: which requests are accepted, as which access, and which refusal the others meet.

use crate::comparison::assert_same;
use chi_fields::{Access, Kind, Op, Refusal, Region, Request, decode};
use chi_samples::plain_request;
use std::process::Abort;
use std::test::Fail;

const EACH_LANE: [u8; 16] = [0, 1, 2, 3, 4, 5, 6, 7, 8, 9, 10, 11, 12, 13, 14, 15];

// A request of requester 0 with little-endian data, all 0.
fn request(opcode: u8, size: u8, addr: u64, be: u16) -> Request {
    plain_request(opcode, size, addr, be, [0; 16])
}

// The access that a region of so many granules from 0x1000 on makes of a request.
fn accepted(granules: u16, request: &Request) -> Result<Access, Fail> {
    let region = Region::new(0x1000, granules)?;
    Ok(decode(request, &region)?)
}

// Compares what a request meets in a region of so many granules from 0x1000 on.
fn assert_meets<R: Abort>(
    rt: &R,
    granules: u16,
    (opcode, size, addr, be): (u8, u8, u64, u16),
    wanted: Option<Refusal>,
) -> Result<(), Fail> {
    let region = Region::new(0x1000, granules)?;
    let found = decode(&request(opcode, size, addr, be), &region).err();
    assert_same(
        rt,
        (opcode, size, addr, be, found),
        (opcode, size, addr, be, wanted),
    );
    Ok(())
}

// Compares what each of these requests meets in a region of 8 granules from 0x1000 on.
fn assert_each_meets<R: Abort>(
    rt: &R,
    requests: &[(u8, u8, u64, u16)],
    wanted: Option<Refusal>,
) -> Result<(), Fail> {
    for request in requests {
        assert_meets(rt, 8, *request, wanted)?;
    }
    Ok(())
}

#[test]
fn misaligned_then_outside(rt: HostRuntime) -> Result<(), Fail> {
    for be in [0x0000, 0xff00, 0xffff] {
        assert_meets(&rt, 8, (0x38, 3, 0x0ffc, be), Some(Refusal::Misaligned))?;
        assert_meets(&rt, 8, (0x38, 3, 0x0ff8, be), Some(Refusal::OutOfRegion))?;
    }
    Ok(())
}

#[test]
fn unknown_opcodes(rt: HostRuntime) -> Result<(), Fail> {
    let requests = [
        (0x1d, 7, 0x0001, 0),
        (0x3a, 7, 0x0001, 0),
        (0xff, 7, 0x0001, 0),
    ];
    assert_each_meets(&rt, &requests, Some(Refusal::UnknownOpcode))
}

#[test]
fn byte_enables_refused(rt: HostRuntime) -> Result<(), Fail> {
    let requests = [(0x1c, 1, 0x1000, 0x0004), (0x28, 1, 0x1000, 0x0001)];
    assert_each_meets(&rt, &requests, Some(Refusal::BadByteEnable))
}

#[test]
fn compare_sizes_refused(rt: HostRuntime) -> Result<(), Fail> {
    let outside = [
        (0x39, 0, 0x1000, 0),
        (0x39, 5, 0x1000, 0),
        (0x39, 6, 0x1000, 0),
    ];
    let reserved = [(0x39, 7, 0x1000, 0), (0x39, 8, 0x1000, 0)];
    assert_each_meets(&rt, &outside, Some(Refusal::SizeOutOfProfile))?;
    assert_each_meets(&rt, &reserved, Some(Refusal::ReservedSize))
}

#[test]
fn compare_window_past_region(rt: HostRuntime) -> Result<(), Fail> {
    let refused = Some(Refusal::OutOfRegion);
    assert_meets(&rt, 1, (0x39, 4, 0x1000, 0xffff), None)?;
    assert_meets(&rt, 1, (0x39, 4, 0x1008, 0xffff), refused)
}

// Each request lacks what the next refusal in the order asks for, and those after it where it can.
#[test]
fn refusals_in_order(rt: HostRuntime) -> Result<(), Fail> {
    let requests = [
        (0x05, 7, 0x0001, 0xffff, Some(Refusal::UnknownOpcode)),
        (0x38, 7, 0x0001, 0xffff, Some(Refusal::ReservedSize)),
        (0x38, 255, 0x0001, 0xffff, Some(Refusal::ReservedSize)),
        (0x38, 6, 0x0001, 0xffff, Some(Refusal::SizeOutOfProfile)),
        (0x04, 4, 0x1000, 0x0000, Some(Refusal::SizeOutOfProfile)),
        (0x1c, 4, 0x1000, 0x0000, Some(Refusal::SizeOutOfProfile)),
        (0x38, 1, 0x0001, 0xffff, Some(Refusal::Misaligned)),
        (0x38, 1, 0x0002, 0xffff, Some(Refusal::OutOfRegion)),
        (0x38, 1, 0x1040, 0x0003, Some(Refusal::OutOfRegion)),
        (0x38, 1, 0x103e, 0xffff, Some(Refusal::BadByteEnable)),
        (0x38, 1, 0x103e, 0xc000, None),
    ];
    for (opcode, size, addr, be, want) in &requests {
        assert_meets(&rt, 8, (*opcode, *size, *addr, *be), *want)?;
    }
    Ok(())
}

// The request is accepted with just these byte enables, and refused with any one of them changed.
fn assert_window<R: Abort>(
    rt: &R,
    (opcode, size, addr, be): (u8, u8, u64, u16),
) -> Result<(), Fail> {
    assert_meets(rt, 8, (opcode, size, addr, be), None)?;
    let refused = Some(Refusal::BadByteEnable);
    let mut other = 1;
    for _ in 0..16 {
        assert_meets(rt, 8, (opcode, size, addr, be ^ other), refused)?;
        other = other.wrapping_mul(2);
    }
    Ok(())
}

#[test]
fn windows(rt: HostRuntime) -> Result<(), Fail> {
    for request in &[
        (0x39, 1, 0x1003, 0x000c),
        (0x39, 2, 0x100c, 0xf000),
        (0x39, 3, 0x1004, 0x00ff),
        (0x39, 4, 0x1008, 0xffff),
        (0x38, 2, 0x1008, 0x0f00),
    ] {
        assert_window(&rt, *request)?;
    }
    Ok(())
}

#[test]
fn write_enables_part_of_window(rt: HostRuntime) -> Result<(), Fail> {
    for be in [0x0000, 0x0040, 0x0080, 0x00c0] {
        assert_meets(&rt, 8, (0x1c, 1, 0x1006, be), None)?;
    }
    let refused = Some(Refusal::BadByteEnable);
    for be in [0x0001, 0x0020, 0x0060, 0x0100, 0x0180, 0x8000] {
        assert_meets(&rt, 8, (0x1c, 1, 0x1006, be), refused)?;
    }
    Ok(())
}

// Compares the kinds of requests of eight bytes with these opcodes.
fn assert_kinds<R: Abort>(rt: &R, kinds: &[(u8, Kind)]) -> Result<(), Fail> {
    for (opcode, kind) in kinds {
        let access = accepted(8, &request(*opcode, 3, 0x1000, 0x00ff))?;
        assert_same(rt, (*opcode, access.kind()), (*opcode, *kind));
    }
    Ok(())
}

#[test]
fn kinds_of_opcodes(rt: HostRuntime) -> Result<(), Fail> {
    let ops = [
        (0, Op::Add),
        (1, Op::Clr),
        (2, Op::Eor),
        (3, Op::Set),
        (4, Op::SMax),
        (5, Op::SMin),
        (6, Op::UMax),
        (7, Op::UMin),
    ];
    let others = [
        (0x04, Kind::Read),
        (0x1c, Kind::Write),
        (0x38, Kind::Swap),
        (0x39, Kind::Compare),
    ];
    for (number, op) in ops {
        let (store, load) = (0x28 | number, 0x30 | number);
        assert_kinds(&rt, &[(store, Kind::Store(op)), (load, Kind::Load(op))])?;
    }
    assert_kinds(&rt, &others)
}

// The request with big-endian data, of a number for each lane.
fn big_endian(request: Request) -> Request {
    Request {
        endian: true,
        lanes: EACH_LANE,
        ..request
    }
}

#[test]
fn fields_of_access(rt: HostRuntime) -> Result<(), Fail> {
    let access = accepted(8, &big_endian(request(0x30, 1, 0x1006, 0x00c0)))?;
    assert_same(
        &rt,
        (access.kind(), access.lanes()),
        (Kind::Load(Op::Add), EACH_LANE),
    );
    let fields = (
        access.addr(),
        access.len(),
        access.endian(),
        access.enables(),
    );
    assert_same(&rt, fields, (0x1006, 2, true, 0x00c0));
    let compare = accepted(8, &request(0x39, 4, 0x1008, 0xffff))?;
    assert_same(&rt, (compare.len(), compare.endian()), (8, false));
    Ok(())
}

#[test]
fn read_keeps_ignored_fields(rt: HostRuntime) -> Result<(), Fail> {
    let access = accepted(8, &big_endian(request(0x04, 0, 0x1003, 0x8421)))?;
    let fields = (access.endian(), access.enables(), access.lanes());
    assert_same(&rt, fields, (true, 0x8421, EACH_LANE));
    Ok(())
}

// The place of the granule of a swap of four bytes, where it fits a region of so many granules from 0x1000 on.
fn granule_of(granules: u16, addr: u64, be: u16) -> Result<Option<usize>, Fail> {
    let access = accepted(8, &request(0x38, 2, addr, be))?;
    let region = Region::new(0x1000, granules)?;
    Ok(if access.fits(&region) {
        Some(access.granule(&region))
    } else {
        None
    })
}

#[test]
fn granules_of_accesses(rt: HostRuntime) -> Result<(), Fail> {
    for (granules, addr, be, want) in [
        (8, 0x1000, 0x000f, Some(0)),
        (8, 0x1004, 0x00f0, Some(0)),
        (8, 0x1008, 0x0f00, Some(1)),
        (8, 0x103c, 0xf000, Some(7)),
        (3, 0x1014, 0x00f0, Some(2)),
        (2, 0x1014, 0x00f0, None),
    ] {
        let found = granule_of(granules, addr, be)?;
        assert_same(&rt, (granules, addr, found), (granules, addr, want));
    }
    let third = accepted(8, &request(0x38, 2, 0x1014, 0x00f0))?;
    assert_same(&rt, third.fits(&Region::new(0x1040, 8)?), false);
    Ok(())
}
