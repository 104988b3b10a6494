//! What of a flit is looked at, by its opcode.

ghost use Rattle.std.specs.Prelude.{◌≡◌};
ghost use Rattle.chi_flit_text.specs.LookedAt.{has_addr, has_excl, has_write_error, looked_at};

use crate::fault::FlitLineFault;
use crate::member::FlitMember;
use chi_flits::{is_cancel, is_read, is_write, is_write_data, takes_txn, writes_nothing};

/// Whether the size and the address of a request are looked at.
pub(crate) fn has_addr(opcode: u8) -> bool
    ensures { result ≡ has_addr opcode }
{
    takes_txn(opcode) && !writes_nothing(opcode)
}

/// Whether the `excl` of a request is looked at. No atomic is exclusive.
pub(crate) fn has_excl(opcode: u8) -> bool
    ensures { result ≡ has_excl opcode }
{
    is_read(opcode) || is_write(opcode)
}

/// Whether the error of data to the home is looked at.
pub(crate) fn has_write_error(opcode: u8) -> bool
    ensures { result ≡ has_write_error opcode }
{
    is_write_data(opcode) && !is_cancel(opcode)
}

/// The value of a member. One that is not known is a fault where the member is looked at, and else `zero`.
pub(crate) fn looked_at<T: Copy>(
    is_looked_at: bool,
    member: FlitMember,
    zero: T,
    value: Option<T>,
) -> Result<T, FlitLineFault>
    ensures { result ≡ looked_at is_looked_at member zero value }
{
    match value {
        Some(value) => Ok(value),
        None if is_looked_at => Err(FlitLineFault::UnknownDigit(member)),
        None => Ok(zero),
    }
}
