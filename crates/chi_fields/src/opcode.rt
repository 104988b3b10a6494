//! The opcodes and their names.

ghost use Rattle.std.specs.Prelude.{◌≡◌, ◌<◌};
ghost use Rattle.chi_fields.specs.Opcode.{kind_of, numbered_op, opcode_name};

use crate::kind::{Kind, Op};

// The operation that the low three bits of an AtomicStore or AtomicLoad name.
fn numbered_op(number: u8) -> Op
    requires { number < 8 }
    ensures { result ≡ numbered_op number }
{
    Op::ALL[usize::from(number)]
}

// The kind that an opcode names.
pub(crate) fn kind_of(opcode: u8) -> Option<Kind>
    ensures { result ≡ kind_of opcode }
{
    match opcode {
        0x04 => Some(Kind::Read),
        0x1c => Some(Kind::Write),
        0x28..=0x2f => Some(Kind::Store(numbered_op(opcode - 0x28))),
        0x30..=0x37 => Some(Kind::Load(numbered_op(opcode - 0x30))),
        0x38 => Some(Kind::Swap),
        0x39 => Some(Kind::Compare),
        _ => None,
    }
}

/// The name of an opcode, as `AtomicLoad.ADD` of 0x30; `Unknown` of one that names no request here.
pub fn op_name(opcode: u8) -> &'static str
    ensures { result.now ≡ opcode_name opcode }
{
    match kind_of(opcode) {
        Some(kind) => kind.name(),
        None => "Unknown",
    }
}
