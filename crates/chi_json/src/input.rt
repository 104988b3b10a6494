//! Reads a whole input, up to a limit.

ghost use Rattle.std.specs.Prelude.{◌≡◌, ◌<◌, ◌≤◌, length, vec_len, IfOk, IfSome, IsErrOf};

use std::alloc::Global;
use std::io::Read;
use thiserror::Error;

/// Why an input was not read whole.
///
/// - `Read`: a read answered a fault. One that was interrupted is a fault like any other.
/// - `TooLong`: the input has more bytes than it may.
/// - `Memory`: no memory for the input.
///
/// ```
/// let fault = InputFault::TooLong; // input is too long
/// ```
#[derive(Clone, Copy, Debug, PartialEq, Eq, Error)]
pub enum InputFault {
    #[error("input could not be read")]
    Read,
    #[error("input is too long")]
    TooLong,
    #[error("no memory")]
    Memory,
}

/// Reads to the end of an input of at most `most` bytes. Any fault of the reader ends it, also that a call was
/// interrupted.
///
/// ```
/// let input = read_input(rt.alloc(), &mut rt.reader(), 4_194_304)?;
/// ```
pub fn read_input<R: Read>(alloc: Global, from: &mut R, most: usize) -> Result<Vec<u8>, InputFault>
    ensures within { IfOk result (λ input. vec_len input ≤ most) }
    ensures bytes { IfOk result (λ input. IfSome (R.remaining from.old) (λ bytes. input.items ≡ bytes)) }
    ensures too_long { IsErrOf result InputFault.TooLong → IfSome (R.remaining from.old) (λ bytes. most < length bytes) }
{
    let mut input = Vec::new(alloc);
    let mut chunk = [0u8; 4096];
    'filling: while input.len() <= most {
        let room = chunk.len().min((most - input.len()).saturating_add(1));
        match from.read(&mut chunk[..room]) {
            Ok(0) => return Ok(input),
            Ok(n) => {
                if input.extend_from_slice(&chunk[..n]).is_err() {
                    return Err(InputFault::Memory);
                }
            }
            Err(_) => return Err(InputFault::Read),
        }
    }
    Err(InputFault::TooLong)
}
