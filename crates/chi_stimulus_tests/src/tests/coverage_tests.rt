//! What scripts by chance cover, as they are and with a fault planted in what makes them.

use crate::tests::comparison::assert_same;
use crate::tests::executed::{script_of, stimulus};
use chi_cover::{Bin, Covered, Plan};
use chi_fields::{Access, Kind, Op, Request, decode};
use chi_lanes::apply;
use chi_script::Script;
use chi_trace::{GranuleWords, Operation, Trace};
use std::alloc::Global;
use std::test::Fail;

/// How many bins are of operations, that of one operation alone, and those of sequences on a granule and on a line.
const OF_OPERATIONS: usize = 1200 + 16 + 11 + 68 + 1 + 36 + 36;

/// What is wrong with requests: they are all little-endian, no compare value stands in an upper half, or no data are sent.
#[derive(Clone, Copy)]
enum Plant {
    Nothing,
    LittleEndian,
    LowerHalves,
    NoData,
}

/// A request with what was planted.
fn planted(request: &Request, plant: Plant) -> Request {
    match plant {
        Plant::LittleEndian => Request {
            endian: false,
            ..*request
        },
        Plant::NoData => Request {
            lanes: [0; 16],
            ..*request
        },
        _ => *request,
    }
}

/// Whether the compare value of an AtomicCompare stands in the upper half of its window.
fn is_upper(access: &Access) -> bool {
    matches!(access.kind(), Kind::Compare) && access.lane() & access.len() != 0
}

/// What the requests of a script cover, one after the other, with what was planted.
fn covered(alloc: Global, script: &Script, plant: Plant) -> Result<Covered, Fail> {
    let region = script.region();
    let mut words = Vec::from_slice(alloc, script.image())?;
    let mut ops = Vec::new(alloc);
    let mut time = 0u64;
    'requests: for request in script.requests() {
        let Ok(access) = decode(&planted(request, plant), &region) else {
            continue 'requests;
        };
        if matches!(plant, Plant::LowerHalves) && is_upper(&access) {
            continue 'requests;
        }
        let Some(word) = words.get_mut(access.granule(&region)) else {
            continue 'requests;
        };
        let (after, reply) = apply(*word, &access);
        *word = after;
        time = time.wrapping_add(1);
        ops.push(Operation {
            number: time,
            src: u16::from(request.src),
            txn: u16::from(request.txn),
            access,
            start: time,
            end: time,
            reply: Some(reply),
        })?;
    }
    let Some(trace) = Trace::new(GranuleWords::none(alloc), ops) else {
        return Err(Fail::new("these operations are no trace"));
    };
    let mut covered = Covered::new(alloc)?;
    covered.add(alloc, trace.operations())?;
    Ok(covered)
}

#[test]
fn scripts_by_chance_cover_all_operations(rt: HostRuntime) -> Result<(), Fail> {
    let alloc = rt.alloc();
    let plan = Plan::of_goal(alloc, 1)?;
    for seed in 1..5 {
        let covered = covered(alloc, &script_of(alloc, &stimulus(seed)?)?, Plant::Nothing)?;
        assert_same(&rt, (seed, covered.covered(&plan)), (seed, OF_OPERATIONS));
    }
    Ok(())
}

#[test]
fn planted_faults_leave_bins_out(rt: HostRuntime) -> Result<(), Fail> {
    let alloc = rt.alloc();
    let plan = Plan::of_goal(alloc, 1)?;
    let script = script_of(alloc, &stimulus(1)?)?;
    let big = Bin::Operand {
        kind: Kind::Swap,
        endian: true,
        len: 8,
        lane: 8,
    };
    let upper = Bin::Comparison {
        len: 4,
        upper: true,
        matched: true,
    };
    let sum = Bin::ChangedSign {
        op: Op::Add,
        len: 2,
    };
    for (plant, bin) in [
        (Plant::LittleEndian, big),
        (Plant::LowerHalves, upper),
        (Plant::NoData, sum),
    ] {
        let covered = covered(alloc, &script, plant)?;
        assert_same(&rt, covered.count(bin), 0);
        assert_same(&rt, covered.covered(&plan) < OF_OPERATIONS, true);
    }
    Ok(())
}
