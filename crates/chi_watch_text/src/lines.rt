//! Lines, one after the other.

ghost use Rattle.std.specs.Prelude.{◌≡◌, ◌⊎◌, [], false, true, Some, IfErr, IfOk, IfSome, IsTrue};
ghost use Rattle.std.specs.Io.BufRead.{drop_through, take_through};
ghost use Rattle.std.specs.Io.KnownBytes.{Keeps};
ghost use Rattle.chi_watch_text.specs.Lines.{is_blank};

use crate::fault::LinesFault;
use memchr::memchr;
use std::io::{BufRead, ErrorKind};

/// Why a line could not be read.
fn read_fault(kind: ErrorKind) -> LinesFault
    ensures { (result ≡ LinesFault.Read) ⊎ (result ≡ LinesFault.Memory) }
{
    match kind {
        ErrorKind::OutOfMemory => LinesFault::Memory,
        _ => LinesFault::Read,
    }
}

/// Reads the next line where the reader holds it whole, and answers whether it does.
fn held_line<R: BufRead>(from: &mut R, line: &mut Vec<u8>) -> Result<bool, LinesFault>
    requires empty { line.now.items ≡ [] }
    ensures line { IfOk result (λ is. IsTrue is → IfSome (R.remaining from.old) (λ text. (line.new.items ≡ take_through 10 text) × (R.remaining from.new ≡ Some (drop_through 10 text)))) }
    ensures kept { IfOk result (λ is. is ≡ false → Keeps (R.remaining from.old) (R.remaining from.new)) }
    ensures empty { IfOk result (λ is. is ≡ false → line.new.items ≡ []) }
    ensures fault { IfErr result (λ fault. (fault ≡ LinesFault.Read) ⊎ (fault ≡ LinesFault.Memory)) }
{
    let held = match from.fill_buf() {
        Ok(held) => held,
        Err(fault) => {
            return match fault.kind() {
                ErrorKind::Interrupted => Ok(false),
                kind => Err(read_fault(kind)),
            };
        }
    };
    let Some(end) = memchr(b'\n', held) else {
        return Ok(false);
    };
    line.extend_from_slice(&held[..end + 1])?;
    from.consume(end + 1);
    Ok(true)
}

/// Reads the next line. At the end it is empty.
pub(crate) fn next_line<R: BufRead>(from: &mut R, line: &mut Vec<u8>) -> Result<(), LinesFault>
    ensures line { IfOk result (λ _. IfSome (R.remaining from.old) (λ text. (line.new.items ≡ take_through 10 text) × (R.remaining from.new ≡ Some (drop_through 10 text)))) }
    ensures fault { IfErr result (λ fault. (fault ≡ LinesFault.Read) ⊎ (fault ≡ LinesFault.Memory)) }
{
    line.clear();
    if held_line(from, line)? {
        return Ok(());
    }
    match from.read_until(b'\n', line) {
        Ok(_) => Ok(()),
        Err(fault) => Err(read_fault(fault.kind())),
    }
}

/// Whether nothing but white space stands there.
pub(crate) fn is_blank(line: &[u8]) -> bool
    ensures { result ≡ is_blank line.now }
{
    line.iter()
        .all(|byte| matches!(*byte, b' ' | b'\t' | b'\n' | b'\r'))
}

/// Whether nothing but white space is left. Reads as far as that is so.
pub(crate) fn is_at_end<R: BufRead>(from: &mut R, line: &mut Vec<u8>) -> Result<bool, LinesFault>
    ensures blank { IfOk result (λ is. IsTrue is → IfSome (R.remaining from.old) (λ text. is_blank text ≡ true)) }
    ensures fault { IfErr result (λ fault. (fault ≡ LinesFault.Read) ⊎ (fault ≡ LinesFault.Memory)) }
{
    for _ in 0..u64::MAX {
        next_line(from, line)?;
        if line.is_empty() {
            return Ok(true);
        }
        if !is_blank(line) {
            return Ok(false);
        }
    }
    Ok(false)
}
