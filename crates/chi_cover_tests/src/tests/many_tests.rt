//! A trace of 65,536 operations.

use crate::tests::comparison::assert_same;
use crate::tests::operations::{covered_by, observed, of_requester};
use chi_cover::{Bin, Depth};
use std::test::Fail;

// Operations of 64 granules, one in each step of time, each open for 255 more: four of a granule are open at once.
#[test]
fn many_operations(rt: HostRuntime) -> Result<(), Fail> {
    let alloc = rt.alloc();
    let mut ops = Vec::new(alloc);
    for start in 0..65_536 {
        let read = observed(0x04, 3, 0x1000 + 8 * (start % 64), false, 0, [0; 16], None)?;
        ops.push(of_requester(read, 1, start, start + 255))?;
    }
    let covered = covered_by(alloc, &ops)?;
    assert_same(&rt, covered.count(Bin::Open(Depth::One)), 64);
    assert_same(&rt, covered.count(Bin::Open(Depth::Two)), 64);
    assert_same(&rt, covered.count(Bin::Open(Depth::UpToFour)), 65_408);
    assert_same(&rt, covered.count(Bin::Requester { same: true }), 65_472);
    Ok(())
}
