//! Reads the whole input, up to a limit, and the script that it is.

ghost use Rattle.std.specs.Prelude.{◌+◌, IfErr, IfOk, IfSome};
ghost use Rattle.chi_history.specs.NumberSets.{AllFrom, below};
ghost use Rattle.chi_engine.specs.Engine.{IsInputFault, Yields};

use crate::fault::EngineFault;
use chi_json::{InputFault, read_input};
use chi_script::{Script, read_script};
use std::alloc::Global;
use std::io::Read;

/// The greatest number of bytes of a script.
pub const MOST_BYTES: usize = 4_194_304;

// Reads the whole input, and the script that it is, of requesters up to `top`.
pub(crate) fn read_whole<R: Read>(
    alloc: Global,
    from: &mut R,
    top: u8,
) -> Result<Script, EngineFault>
    ensures read { IfSome (R.remaining from.old) (λ input. Yields input top result) }
    ensures faults { IfErr result IsInputFault }
    ensures from { IfOk result (λ script. AllFrom (below (top + 1)) script.requests) }
{
    let input = match read_input(alloc, from, MOST_BYTES) {
        Ok(input) => input,
        Err(InputFault::Read) => return Err(EngineFault::Read),
        Err(InputFault::TooLong) => return Err(EngineFault::TooLong),
        Err(InputFault::Memory) => return Err(EngineFault::Memory),
    };
    match read_script(alloc, input.as_slice(), top) {
        Ok(script) => Ok(script),
        Err(fault) => Err(EngineFault::Script(fault)),
    }
}
