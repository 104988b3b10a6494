//! Bytes to a writer, through a page.

ghost use Rattle.std.specs.Prelude.{◌≡◌, [], OnOk};
ghost use Rattle.chi_script.specs.WriterBytes.{Puts, Writes};

use crate::page::{PAGE, Page};
use std::io::Write;
use thiserror::Error;

/// Why a text was not written whole.
///
/// - `Failed`: a write answered a fault. One that was interrupted is a fault like any other.
/// - `Stuck`: a write took no byte.
///
/// ```
/// let fault = write_lines(&mut out, &lines).err(); // Some(WriteFault::Stuck)
/// ```
#[derive(Clone, Copy, Debug, PartialEq, Eq, Error)]
pub enum WriteFault {
    #[error("output could not be written")]
    Failed,
    #[error("output could not be written")]
    Stuck,
}

/// Writes all bytes, in as many writes as it takes. After a fault exactly a prefix of them has been written.
///
/// ```
/// write_bytes(&mut out, b"explained\n")?;
/// ```
pub fn write_bytes<W: Write>(to: &mut W, bytes: &[u8]) -> Result<(), WriteFault>
    ensures { Puts (W.contents to.old) (W.contents to.new) result bytes.now }
{
    let mut at = 0;
    'writing: while at < bytes.len() {
        match to.write(&bytes[at..]) {
            Ok(0) => return Err(WriteFault::Stuck),
            Ok(n) => at += n,
            Err(_) => return Err(WriteFault::Failed),
        }
    }
    Ok(())
}

// What the page holds to the writer.
pub(crate) fn put_page<W: Write>(to: &mut W, page: &mut Page) -> Result<(), WriteFault>
    ensures writes { Writes (W.contents to.old) page.old (W.contents to.new) page.new result [] }
    ensures empty { OnOk result (page.new ≡ []) }
{
    write_bytes(to, page.bytes())?;
    page.clear();
    Ok(())
}

// Some bytes to the page, and what the page held to the writer first where there is no room. More than a page
// holds go to the writer at once.
pub(crate) fn put_bytes<W: Write>(
    to: &mut W,
    page: &mut Page,
    bytes: &[u8],
) -> Result<(), WriteFault>
    ensures { Writes (W.contents to.old) page.old (W.contents to.new) page.new result bytes.now }
{
    if page.room() < bytes.len() {
        put_page(to, page)?;
        if PAGE < bytes.len() {
            return write_bytes(to, bytes);
        }
    }
    page.extend(bytes);
    Ok(())
}
