//! Tests of the requests that are to be refused.

use crate::tests::comparison::assert_same;
use crate::tests::counts::Counts;
use crate::tests::executed::{script_of, stimulus};
use chi_fields::{Refusal, decode};
use chi_stimulus::Stimulus;
use std::alloc::Global;
use std::test::Fail;

/// The number of a refusal.
fn place(refusal: Refusal) -> usize {
    match refusal {
        Refusal::UnknownOpcode => 0,
        Refusal::ReservedSize => 1,
        Refusal::SizeOutOfProfile => 2,
        Refusal::Misaligned => 3,
        Refusal::OutOfRegion => 4,
        Refusal::BadByteEnable => 5,
    }
}

/// How often each refusal comes in the script of a stimulus, and at the end how many requests are accepted.
fn decided(alloc: Global, stimulus: &Stimulus) -> Result<[u64; 7], Fail> {
    let script = script_of(alloc, stimulus)?;
    let region = script.region();
    let mut counts = Counts::new(alloc, 7)?;
    for request in script.requests() {
        counts.add(decode(request, &region).err().map_or(6, place));
    }
    Ok([
        counts.count(0),
        counts.count(1),
        counts.count(2),
        counts.count(3),
        counts.count(4),
        counts.count(5),
        counts.count(6),
    ])
}

#[test]
fn none_is_refused(rt: HostRuntime) -> Result<(), Fail> {
    assert_same(
        &rt,
        decided(rt.alloc(), &stimulus(7)?)?,
        [0, 0, 0, 0, 0, 0, 4096],
    );
    Ok(())
}

/// One of a hundred: ten of a thousand, which the six refusals share in turn.
#[test]
fn each_refusal_comes_in_a_thousand(rt: HostRuntime) -> Result<(), Fail> {
    let few = Stimulus {
        requests: 1000,
        refused: 1,
        ..stimulus(7)?
    };
    assert_same(&rt, decided(rt.alloc(), &few)?, [2, 2, 2, 2, 1, 1, 990]);
    Ok(())
}

/// All of them.
#[test]
fn all_are_refused(rt: HostRuntime) -> Result<(), Fail> {
    let all = Stimulus {
        requests: 600,
        refused: 100,
        ..stimulus(7)?
    };
    assert_same(
        &rt,
        decided(rt.alloc(), &all)?,
        [100, 100, 100, 100, 100, 100, 0],
    );
    Ok(())
}
