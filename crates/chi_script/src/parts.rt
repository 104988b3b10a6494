//! The parts of a line to a writer.

ghost use Rattle.std.specs.Prelude.{◌≡◌, flat_map};
ghost use Rattle.chi_script.specs.WriterBytes.{Writes};
ghost use Rattle.chi_text.specs.Part.{part_text};

use crate::device::{WriteFault, put_bytes};
use crate::page::Page;
use chi_text::Part;
use std::io::Write;

// Some parts, one after the other.
pub(crate) fn put_parts<W: Write>(
    to: &mut W,
    page: &mut Page,
    parts: &[Part],
) -> Result<(), WriteFault>
    ensures { Writes (W.contents to.old) page.old (W.contents to.new) page.new result (flat_map part_text parts.now) }
{
    let mut room = [0; 32];
    'parts: for part in parts {
        put_bytes(to, page, part.text(&mut room))?;
    }
    Ok(())
}
