//! Tests of the names and texts of opcodes, refusals and region faults.

use crate::comparison::assert_same;
use chi_fields::{Refusal, RegionFault, op_name, refusal_name, region_fault_name};
use std::fmt::Display;
use std::process::Abort;
use std::test::Fail;

const OPCODES: [(u8, &str); 20] = [
    (0x04, "ReadNoSnp"),
    (0x1c, "WriteNoSnpPtl"),
    (0x28, "AtomicStore.ADD"),
    (0x29, "AtomicStore.CLR"),
    (0x2a, "AtomicStore.EOR"),
    (0x2b, "AtomicStore.SET"),
    (0x2c, "AtomicStore.SMAX"),
    (0x2d, "AtomicStore.SMIN"),
    (0x2e, "AtomicStore.UMAX"),
    (0x2f, "AtomicStore.UMIN"),
    (0x30, "AtomicLoad.ADD"),
    (0x31, "AtomicLoad.CLR"),
    (0x32, "AtomicLoad.EOR"),
    (0x33, "AtomicLoad.SET"),
    (0x34, "AtomicLoad.SMAX"),
    (0x35, "AtomicLoad.SMIN"),
    (0x36, "AtomicLoad.UMAX"),
    (0x37, "AtomicLoad.UMIN"),
    (0x38, "AtomicSwap"),
    (0x39, "AtomicCompare"),
];

// The name that is listed for an opcode.
fn listed(opcode: u8) -> &'static str {
    for (each, name) in &OPCODES {
        if *each == opcode {
            return name;
        }
    }
    "Unknown"
}

#[test]
fn op_names(rt: HostRuntime) {
    for opcode in 0..=u8::MAX {
        assert_same(&rt, (opcode, op_name(opcode)), (opcode, listed(opcode)));
    }
}

// Compares the lines of refusals or faults: each with its name and its text.
fn assert_lines<R: AllocGlobal + Abort, T: Display>(
    rt: &R,
    named: &[(&str, T)],
    wanted: &str,
) -> Result<(), Fail> {
    let mut lines = String::new(rt.alloc());
    for (name, shown) in named {
        let line = format!(in rt.alloc(); "{name}: {shown}\n")?;
        lines.push_str(line.as_str())?;
    }
    assert_same(rt, lines.as_str(), wanted);
    Ok(())
}

#[test]
fn refusal_names_and_texts(rt: HostRuntime) -> Result<(), Fail> {
    let refusals = [
        Refusal::UnknownOpcode,
        Refusal::ReservedSize,
        Refusal::SizeOutOfProfile,
        Refusal::Misaligned,
        Refusal::OutOfRegion,
        Refusal::BadByteEnable,
    ];
    let wanted = "UnknownOpcode: the opcode names no request
ReservedSize: the size is reserved
SizeOutOfProfile: the size is outside the profile
Misaligned: the address is not a multiple of the operand's length
OutOfRegion: the operand is not in the region
BadByteEnable: a byte enable is outside the window, or an atomic's is missing
";
    let named = refusals.map(|it| (refusal_name(it), it));
    assert_lines(&rt, &named, wanted)
}

#[test]
fn region_fault_names_and_texts(rt: HostRuntime) -> Result<(), Fail> {
    let faults = [
        RegionFault::BaseNotLineAligned,
        RegionFault::GranuleCount,
        RegionFault::EndPastAddresses,
    ];
    let wanted = "BaseNotLineAligned: the base is not a multiple of 64
GranuleCount: the number of granules is not 1 to 512
EndPastAddresses: the end is past the last address
";
    let named = faults.map(|it| (region_fault_name(it), it));
    assert_lines(&rt, &named, wanted)
}
