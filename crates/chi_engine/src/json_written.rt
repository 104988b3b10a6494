//! A value that is written as JSON.

ghost use Rattle.std.specs.Prelude.{◌≡◌, ◌≤◌, IfOk, Some, string_bytes};
ghost use Rattle.serde_json.specs.Data.{depth};
ghost use Rattle.serde_json.specs.View.{view};
ghost use Rattle.chi_json.specs.Values.{json_value};
ghost use Rattle.chi_engine.specs.JsonWritten.{KeepsUnwritten, WritesValue};

use crate::fault::EngineFault;
use chi_script::write_bytes;
use serde_json::Value;
use std::alloc::{AllocError, Global};
use std::io::Write;

// The text of a value.
fn text_of(alloc: Global, value: &Value) -> Result<String, AllocError>
    requires { depth (view value.now) ≤ 127 }
    ensures { IfOk result (λ text. json_value (string_bytes text) ≡ Some (view value.now)) }
{
    let text = value.to_string(alloc)?;
    // That the bytes are UTF-8 is known here once they are looked at.
    let _bytes = text.as_str().as_bytes();
    Ok(text)
}

// Writes the text of a value, where there is memory for it.
pub(crate) fn write_value<W: Write>(
    alloc: Global,
    value: &Value,
    to: &mut W,
) -> Result<(), EngineFault>
    requires { depth (view value.now) ≤ 127 }
    ensures written { WritesValue (view value.now) (W.contents to.old) (W.contents to.new) result }
    ensures unwritten { KeepsUnwritten (W.contents to.old) (W.contents to.new) result }
{
    let Ok(text) = text_of(alloc, value) else {
        return Err(EngineFault::Memory);
    };
    write_bytes(to, text.as_str().as_bytes()).map_err(EngineFault::Write)
}
