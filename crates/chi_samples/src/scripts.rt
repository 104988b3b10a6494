//! Scripts of additions, whose requesters a contract knows since they were read.

ghost use Rattle.std.specs.Prelude.{◌+◌, IfOk};
ghost use Rattle.chi_history.specs.NumberSets.{AllFrom, below};

use chi_script::{Script, read_script};
use std::test::Fail;

const HEAD: &str = "{\"base\":4096,\"granules\":8,\"requests\":[";

// Adds an addition of 1 to the first eight bytes, after this text.
fn push_addition(
    rt: &impl AllocGlobal,
    text: &mut String,
    before: &str,
    opcode: u8,
    src: u8,
    txn: u16,
) -> Result<(), Fail> {
    let request = format!(in rt.alloc();
        "{before}{{\"src\":{src},\"txn\":{txn},\"op\":{opcode},\"size\":3,\"addr\":4096,\"endian\":0,\"be\":255,\"lanes\":\"01000000000000000000000000000000\"}}"
    )?;
    text.push_str(request.as_str())?;
    Ok(())
}

/// A script of additions of 1 to the first eight bytes: so many by each of these requesters, in turn. Their
/// identifiers rise from 1, and begin again from 0 after 255. The script is read, so that each requester is known to
/// be at most `top`.
///
/// ```
/// let script = additions(&rt, 0x28, &[1, 2], 1000, 2)?;
/// ```
pub fn additions(
    rt: &impl AllocGlobal,
    opcode: u8,
    requesters: &[u8],
    each: u16,
    top: u8,
) -> Result<Script, Fail>
    ensures { IfOk result (λ script. AllFrom (below (top + 1)) script.requests) }
{
    let mut text = String::from_str(rt.alloc(), HEAD)?;
    let mut before = "";
    for number in 0..each {
        for src in requesters {
            push_addition(rt, &mut text, before, opcode, *src, (number + 1) % 256)?;
            before = ",";
        }
    }
    text.push_str("]}")?;
    Ok(read_script(rt.alloc(), text.as_bytes(), top)?)
}
