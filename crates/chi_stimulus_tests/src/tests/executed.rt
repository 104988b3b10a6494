//! Scripts by chance, executed in their order.

ghost use Rattle.std.specs.Prelude.{◌≤◌};

use chi_fields::{Access, Region, Request, decode};
use chi_lanes::{Reply, apply};
use chi_script::{Script, read_script};
use chi_stimulus::{Mix, Stimulus, generated_script};
use std::alloc::Global;
use std::test::Fail;

/// 4,096 requests of four requesters, of eight granules that open with zeros.
pub(crate) fn stimulus(seed: u64) -> Result<Stimulus, Fail> {
    Ok(Stimulus {
        requests: 4096,
        seed,
        region: Region::new(0x1000, 8)?,
        image: false,
        requesters: 4,
        refused: 0,
        hot: 0,
        mix: Mix::named("read=1,write=1,store=2,load=3,swap=1,compare=1")?,
    })
}

/// The script of a stimulus.
pub(crate) fn script_of(alloc: Global, stimulus: &Stimulus) -> Result<Script, Fail> {
    let text = generated_script(alloc, stimulus)?;
    Ok(read_script(alloc, text.as_str().as_bytes(), 7)?)
}

/// An operation, and the number that it found in its operand.
#[derive(Drop)]
pub(crate) struct Executed {
    pub(crate) opcode: u8,
    pub(crate) access: Access,
    pub(crate) found: u64,
}

/// The power of two of an operand's length.
pub(crate) fn power(access: &Access) -> u8
    ensures { result ≤ 3 }
{
    match access.len() {
        1 => 0,
        2 => 1,
        4 => 2,
        _ => 3,
    }
}

/// How many bits an operand has.
pub(crate) fn bits(access: &Access) -> u32
    ensures some { 8 ≤ result }
    ensures most { result ≤ 64 }
{
    match power(access) {
        0 => 8,
        1 => 16,
        2 => 32,
        _ => 64,
    }
}

/// The number of an operand in a data packet, from a lane on.
pub(crate) fn number(access: &Access, lanes: [u8; 16], lane: usize) -> u64 {
    let packet = u128::from_le_bytes(lanes) >> (8 * (lane % 16));
    let unused = 64 - bits(access);
    let low = ((packet & u128::from(u64::MAX)) as u64) << unused;
    if access.endian() {
        low.swap_bytes()
    } else {
        low >> unused
    }
}

/// The operations of a script, each on what those before it left.
pub(crate) fn operations_of(alloc: Global, script: &Script) -> Result<Vec<Executed>, Fail> {
    let region = script.region();
    let mut words = Vec::from_slice(alloc, script.image())?;
    let mut executed = Vec::new(alloc);
    'requests: for request in script.requests() {
        let Ok(access) = decode(request, &region) else {
            continue 'requests;
        };
        let read = Request {
            opcode: 0x04,
            size: power(&access),
            ..*request
        };
        let place = access.granule(&region);
        let Some(word) = words.get_mut(place) else {
            continue 'requests;
        };
        let Reply::CompData(found) = apply(*word, &decode(&read, &region)?).1 else {
            continue 'requests;
        };
        *word = apply(*word, &access).0;
        executed.push(Executed {
            opcode: request.opcode,
            access,
            found: number(&access, found, access.lane()),
        })?;
    }
    Ok(executed)
}
