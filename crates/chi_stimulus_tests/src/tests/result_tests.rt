//! Tests of what AtomicLoad leaves: the number that was found, one of the other sign, and a sum beyond its bytes.

use crate::tests::comparison::assert_same;
use crate::tests::counts::Counts;
use crate::tests::executed::{Executed, bits, number, operations_of, power, script_of, stimulus};
use chi_fields::{Kind, Op};
use std::test::Fail;

/// A number of so many bits, 1 to 64, as one in two's complement.
fn signed(number: u64, bits: u32) -> i64 {
    let unused = 64 - bits.clamp(1, 64);
    i64::from_le_bytes((number << unused).to_le_bytes())
}

/// What an operation leaves of the number that it finds.
fn left(op: Op, it: &Executed) -> u64 {
    let (old, bits) = (it.found, bits(&it.access));
    let sent = number(&it.access, it.access.lanes(), it.access.lane());
    let left = match op {
        Op::Add => old.wrapping_add(sent),
        Op::Clr => old & !sent,
        Op::Eor => old ^ sent,
        Op::Set => old | sent,
        Op::SMax => if signed(sent, bits) > signed(old, bits) {
            sent
        } else {
            old
        },
        Op::SMin => if signed(sent, bits) < signed(old, bits) {
            sent
        } else {
            old
        },
        Op::UMax => old.max(sent),
        Op::UMin => old.min(sent),
    };
    left & u64::MAX >> (64 - bits.clamp(1, 64))
}

/// Each operation keeps what it finds and leaves the other sign, with each length, and sums are carried beyond each length.
#[test]
fn each_result_comes(rt: HostRuntime) -> Result<(), Fail> {
    let alloc = rt.alloc();
    for seed in 1..9 {
        let script = script_of(alloc, &stimulus(seed)?)?;
        let mut kept = Counts::new(alloc, 256 * 4)?;
        let mut turned = Counts::new(alloc, 256 * 4)?;
        let mut carried = Counts::new(alloc, 4)?;
        for it in operations_of(alloc, &script)? {
            if let Kind::Load(op) = it.access.kind() {
                let bits = bits(&it.access);
                let power = usize::from(power(&it.access));
                let number = usize::from(it.opcode) * 4 + power;
                let new = left(op, &it);
                if new == it.found {
                    kept.add(number);
                }
                if (signed(new, bits) < 0) != (signed(it.found, bits) < 0) {
                    turned.add(number);
                }
                if it.opcode == 0x30 && new < it.found {
                    carried.add(power);
                }
            }
        }
        let came = (kept.came(), turned.came(), carried.came());
        assert_same(&rt, (seed, came), (seed, (32, 32, 4)));
    }
    Ok(())
}
