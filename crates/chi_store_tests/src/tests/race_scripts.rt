//! Scripts of races on two granules: each worker adds, swaps, compares, stores and reads, and 0 reads after them.

ghost use Rattle.std.specs.Prelude.{◌+◌, IfOk};
ghost use Rattle.chi_history.specs.NumberSets.{AllFrom, below};

use chi_script::{Script, read_script};
use std::test::Fail;

// The region with its image. No byte of a race has its highest bit set.
const HEAD: &str =
    "{\"base\":4096,\"granules\":2,\"image\":\"07000000000000000501000000000000\",\"requests\":[";

// Four requests of each of 1 to 4.
const BY_WORKERS: [&str; 16] = [
    "{\"src\":1,\"txn\":1,\"op\":48,\"size\":3,\"addr\":4096,\"endian\":0,\"be\":255,\"lanes\":\"01000000000000000000000000000000\"}",
    "{\"src\":1,\"txn\":2,\"op\":57,\"size\":4,\"addr\":4096,\"endian\":0,\"be\":65535,\"lanes\":\"08000000000000001400000000000000\"}",
    "{\"src\":1,\"txn\":3,\"op\":4,\"size\":3,\"addr\":4104,\"endian\":0,\"be\":0,\"lanes\":\"00000000000000000000000000000000\"}",
    "{\"src\":1,\"txn\":4,\"op\":56,\"size\":3,\"addr\":4104,\"endian\":0,\"be\":65280,\"lanes\":\"00000000000000001e00000000000000\"}",
    "{\"src\":2,\"txn\":5,\"op\":48,\"size\":3,\"addr\":4096,\"endian\":0,\"be\":255,\"lanes\":\"02000000000000000000000000000000\"}",
    "{\"src\":2,\"txn\":6,\"op\":40,\"size\":3,\"addr\":4104,\"endian\":0,\"be\":65280,\"lanes\":\"00000000000000000300000000000000\"}",
    "{\"src\":2,\"txn\":7,\"op\":56,\"size\":3,\"addr\":4096,\"endian\":0,\"be\":255,\"lanes\":\"28000000000000000000000000000000\"}",
    "{\"src\":2,\"txn\":8,\"op\":48,\"size\":3,\"addr\":4104,\"endian\":0,\"be\":65280,\"lanes\":\"00000000000000000400000000000000\"}",
    "{\"src\":3,\"txn\":9,\"op\":4,\"size\":3,\"addr\":4096,\"endian\":0,\"be\":0,\"lanes\":\"00000000000000000000000000000000\"}",
    "{\"src\":3,\"txn\":10,\"op\":48,\"size\":3,\"addr\":4096,\"endian\":0,\"be\":255,\"lanes\":\"01000000000000000000000000000000\"}",
    "{\"src\":3,\"txn\":11,\"op\":48,\"size\":3,\"addr\":4104,\"endian\":0,\"be\":65280,\"lanes\":\"00000000000000000100000000000000\"}",
    "{\"src\":3,\"txn\":12,\"op\":57,\"size\":4,\"addr\":4104,\"endian\":0,\"be\":65535,\"lanes\":\"32000000000000000600000000000000\"}",
    "{\"src\":4,\"txn\":13,\"op\":56,\"size\":3,\"addr\":4104,\"endian\":0,\"be\":65280,\"lanes\":\"00000000000000003c00000000000000\"}",
    "{\"src\":4,\"txn\":14,\"op\":48,\"size\":3,\"addr\":4096,\"endian\":0,\"be\":255,\"lanes\":\"03000000000000000000000000000000\"}",
    "{\"src\":4,\"txn\":15,\"op\":4,\"size\":3,\"addr\":4104,\"endian\":0,\"be\":0,\"lanes\":\"00000000000000000000000000000000\"}",
    "{\"src\":4,\"txn\":16,\"op\":40,\"size\":3,\"addr\":4096,\"endian\":0,\"be\":255,\"lanes\":\"05000000000000000000000000000000\"}",
];

// A request of 0.
const BY_ZERO: &str =
    "{\"src\":0,\"txn\":17,\"op\":4,\"size\":3,\"addr\":4096,\"endian\":0,\"be\":0,\"lanes\":\"00000000000000000000000000000000\"}";

// A script of these requests of workers, and then that of 0, of requesters up to `top`.
fn script(rt: &impl AllocGlobal, workers: &[&str], top: u8) -> Result<Script, Fail>
    ensures { IfOk result (λ script. AllFrom (below (top + 1)) script.requests) }
{
    let mut text = String::from_str(rt.alloc(), HEAD)?;
    for request in workers {
        text.push_str(request)?;
        text.push_str(",")?;
    }
    text.push_str(BY_ZERO)?;
    text.push_str("]}")?;
    Ok(read_script(rt.alloc(), text.as_bytes(), top)?)
}

/// A race of two, nine requests in all.
pub(crate) fn race_of_two(rt: &impl AllocGlobal) -> Result<Script, Fail>
    ensures { IfOk result (λ script. AllFrom (below (2 + 1)) script.requests) }
{
    script(rt, &BY_WORKERS[..8], 2)
}

/// A race of four, seventeen requests in all.
pub(crate) fn race_of_four(rt: &impl AllocGlobal) -> Result<Script, Fail>
    ensures { IfOk result (λ script. AllFrom (below (4 + 1)) script.requests) }
{
    script(rt, &BY_WORKERS, 4)
}
