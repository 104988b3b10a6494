//! What a request asks of the home.

ghost use Rattle.std.specs.Prelude.{◌≡◌, Some};

/// What an atomic makes of the old bytes and the sent ones.
///
/// `Clr` clears the bits that are 1 in the sent data, `Eor` is exclusive or, and `Set` is or. `SMax` and
/// `SMin` compare two's complement numbers, `UMax` and `UMin` unsigned ones.
///
/// Source: Arm IHI 0050 Issue B, atomic operations.
#[derive(Clone, Copy, Debug, PartialEq, Eq)]
pub enum Op {
    Add,
    Clr,
    Eor,
    Set,
    SMax,
    SMin,
    UMax,
    UMin,
}

impl Op {
    ghost use Rattle.chi_fields.specs.Opcode.{op_number};

    /// All operations, in the order of the low three bits of their opcodes.
    pub const ALL: [Op; 8] = [
        Op::Add,
        Op::Clr,
        Op::Eor,
        Op::Set,
        Op::SMax,
        Op::SMin,
        Op::UMax,
        Op::UMin,
    ];

    /// The low three bits of the opcode of an AtomicStore or AtomicLoad of this operation.
    ///
    /// ```
    /// let number = Op::Eor.number(); // 2
    /// ```
    pub fn number(self) -> u8
        ensures { result ≡ op_number self }
    {
        self as u8
    }
}

/// The kind of a request: `ReadNoSnp`, `WriteNoSnpPtl`, `AtomicStore`, `AtomicLoad`, `AtomicSwap` or
/// `AtomicCompare`.
///
/// Source: Arm IHI 0050 Issue B, atomic transactions.
#[derive(Clone, Copy, Debug, PartialEq, Eq)]
pub enum Kind {
    Read,
    Write,
    Store(Op),
    Load(Op),
    Swap,
    Compare,
}

impl Kind {
    ghost use Rattle.chi_fields.specs.Opcode.{kind_name};

    /// The name of the kind's opcode.
    ///
    /// ```
    /// let name = Kind::Load(Op::Add).name(); // AtomicLoad.ADD
    /// ```
    pub fn name(self) -> &'static str
        ensures { result.now ≡ kind_name (Some self) }
    {
        match self {
            Kind::Read => "ReadNoSnp",
            Kind::Write => "WriteNoSnpPtl",
            Kind::Store(op) => match op {
                Op::Add => "AtomicStore.ADD",
                Op::Clr => "AtomicStore.CLR",
                Op::Eor => "AtomicStore.EOR",
                Op::Set => "AtomicStore.SET",
                Op::SMax => "AtomicStore.SMAX",
                Op::SMin => "AtomicStore.SMIN",
                Op::UMax => "AtomicStore.UMAX",
                Op::UMin => "AtomicStore.UMIN",
            },
            Kind::Load(op) => match op {
                Op::Add => "AtomicLoad.ADD",
                Op::Clr => "AtomicLoad.CLR",
                Op::Eor => "AtomicLoad.EOR",
                Op::Set => "AtomicLoad.SET",
                Op::SMax => "AtomicLoad.SMAX",
                Op::SMin => "AtomicLoad.SMIN",
                Op::UMax => "AtomicLoad.UMAX",
                Op::UMin => "AtomicLoad.UMIN",
            },
            Kind::Swap => "AtomicSwap",
            Kind::Compare => "AtomicCompare",
        }
    }
}
