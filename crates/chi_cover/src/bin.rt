//! The bins of a table of coverage.

ghost use Rattle.std.specs.Prelude.{◌≡◌};

use chi_fields::{Kind, Op};

/// How many of the operand's byte enables are 1.
#[derive(Clone, Copy, Debug, PartialEq, Eq)]
pub enum Enabled {
    NoLane,
    SomeLanes,
    AllLanes,
}

/// How many operations of a granule were open when one started, itself included: 1, 2, 3 to 4, 5 to 8, or more.
#[derive(Clone, Copy, Debug, PartialEq, Eq)]
pub enum Depth {
    One,
    Two,
    UpToFour,
    UpToEight,
    More,
}

/// The transaction of an operation, whatever an AtomicStore or an AtomicLoad makes of its data.
///
/// Source: Arm IHI 0050 Issue B, atomic transactions.
#[derive(Clone, Copy, Debug, PartialEq, Eq)]
pub enum Transaction {
    ReadNoSnp,
    WriteNoSnpPtl,
    AtomicStore,
    AtomicLoad,
    AtomicSwap,
    AtomicCompare,
}

impl Transaction {
    ghost use Rattle.chi_cover.specs.Names.{transaction_text};

    /// The name of the transaction, as `AtomicLoad`.
    pub(crate) fn name(self) -> &'static str
        ensures { result.now ≡ transaction_text self }
    {
        match self {
            Transaction::ReadNoSnp => "ReadNoSnp",
            Transaction::WriteNoSnpPtl => "WriteNoSnpPtl",
            Transaction::AtomicStore => "AtomicStore",
            Transaction::AtomicLoad => "AtomicLoad",
            Transaction::AtomicSwap => "AtomicSwap",
            Transaction::AtomicCompare => "AtomicCompare",
        }
    }
}

/// A bin: what an operation has to be for the bin to count it. `len` is the operand's length and `lane` its first lane.
///
/// - `Operand`: of this kind, byte order (`endian` is true of big-endian), length and lane.
/// - `Comparison`: an AtomicCompare that returned data, by the half of its window in which the compare value stands, and by
///   whether the operand's old bytes are the compare value.
/// - `Enables`: a WriteNoSnpPtl with so many of its operand's byte enables.
/// - `Kept`, `ChangedSign` and `Wrapped`: an AtomicLoad that returned data and left the old value, left one of the other sign
///   in two's complement, or of ADD did not hold the sum.
/// - `Open`: one that started while so many operations of its granule were open.
/// - `Overlap`: a `later` transaction that started while an `earlier` one with a byte of the same operand was open.
/// - `Requester`: one that started while such an earlier one of the `same` requester was open, or of another.
/// - `Sequence`: a `later` transaction that started after the one before it on its granule, an `earlier` one, had ended.
/// - `LineSequence`: the same of the one before it on its line of eight granules, where that is of another granule.
#[derive(Clone, Copy, Debug)]
pub enum Bin {
    Operand {
        kind: Kind,
        endian: bool,
        len: u8,
        lane: u8,
    },
    Comparison {
        len: u8,
        upper: bool,
        matched: bool,
    },
    Enables {
        len: u8,
        enabled: Enabled,
    },
    Kept {
        op: Op,
        len: u8,
    },
    ChangedSign {
        op: Op,
        len: u8,
    },
    Wrapped {
        len: u8,
    },
    Open(Depth),
    Overlap {
        earlier: Transaction,
        later: Transaction,
    },
    Requester {
        same: bool,
    },
    Sequence {
        earlier: Transaction,
        later: Transaction,
    },
    LineSequence {
        earlier: Transaction,
        later: Transaction,
    },
}
