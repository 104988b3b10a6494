//! Granules that are told as soon as they are found.

ghost use Rattle.std.specs.Prelude.{◌≡◌, ℕ, OnOk, IfErr};
ghost use Rattle.chi_script.specs.WriterBytes.{Puts};
ghost use Rattle.chi_search.specs.Looks.{for_verdict};

use crate::fault::LinesFault;
use crate::progress::WatchProgress;
use chi_script::write_bytes;
use std::io::Write;

/// Writes a text whole, and sees to it that it is there at once.
fn write_at_once<W: Write>(to: &mut W, text: &[u8]) -> Result<(), LinesFault>
    ensures written { Puts (W.contents to.old) (W.contents to.new) result text.now }
    ensures fault { IfErr result (λ fault. fault ≡ LinesFault.Write) }
{
    if write_bytes(to, text).is_err() {
        return Err(LinesFault::Write);
    }
    match to.flush() {
        Ok(()) => Ok(()),
        Err(_) => Err(LinesFault::Write),
    }
}

/// Tells the text of a granule that was found, in place of how far the watch is.
pub(crate) fn tell<W: Write, P: WatchProgress>(
    to: &mut W,
    text: &[u8],
    progress: &mut P,
) -> Result<(), LinesFault>
    ensures written { Puts (W.contents to.old) (W.contents to.new) result text.now }
    ensures fault { IfErr result (λ fault. fault ≡ LinesFault.Write) }
    ensures looked { (n : ℕ) → P.looked for_verdict progress.old n → P.looked for_verdict progress.new n }
{
    progress.clear();
    write_at_once(to, text)
}
