//! The numbers by which C knows refusals, region faults, kinds and operations.

ghost use Rattle.std.specs.Prelude.{◌≡◌};
ghost use Rattle.chi_c.specs.CallNumbers.{fault_number, kind_number, op_number, refusal_number};

use chi_fields::{Kind, Refusal, RegionFault};

// The refusals in their order, from 1 on.
#[inline]
pub(crate) fn refusal_number(refusal: Refusal) -> u32
    ensures { result ≡ refusal_number refusal }
{
    match refusal {
        Refusal::UnknownOpcode => 1,
        Refusal::ReservedSize => 2,
        Refusal::SizeOutOfProfile => 3,
        Refusal::Misaligned => 4,
        Refusal::OutOfRegion => 5,
        Refusal::BadByteEnable => 6,
    }
}

// The faults of a region in their order, from 17 on.
#[inline]
pub(crate) fn fault_number(fault: RegionFault) -> u32
    ensures { result ≡ fault_number fault }
{
    match fault {
        RegionFault::BaseNotLineAligned => 17,
        RegionFault::GranuleCount => 18,
        RegionFault::EndPastAddresses => 19,
    }
}

// The kind without its operation.
pub(crate) fn kind_number(kind: Kind) -> u8
    ensures { result ≡ kind_number kind }
{
    match kind {
        Kind::Read => 0,
        Kind::Write => 1,
        Kind::Store(_) => 2,
        Kind::Load(_) => 3,
        Kind::Swap => 4,
        Kind::Compare => 5,
    }
}

// The operation of an AtomicStore or AtomicLoad by the opcode's low three bits, and 8 of the other kinds.
pub(crate) fn op_number(kind: Kind) -> u8
    ensures { result ≡ op_number kind }
{
    match kind {
        Kind::Store(op) | Kind::Load(op) => op.number(),
        _ => 8,
    }
}
