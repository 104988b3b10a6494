//! One thread: a request is decoded, and applied to the word of its granule.

ghost use Rattle.std.specs.Prelude.{◌≡◌, length, Err, IfErr};
ghost use Rattle.chi_fields.specs.Refusal.{decision};

use chi_fields::{Refusal, Region, Request, decode, refusal_name};
use chi_lanes::{Reply, apply};

// An AtomicLoad ADD of 1 to the eight bytes at this address.
pub(crate) fn add_one(addr: u64) -> Request {
    let lane = addr % 16;
    let mut lanes = [0; 16];
    lanes[lane as usize] = 1;
    Request {
        src: 0,
        txn: 1,
        opcode: 0x30,
        size: 3,
        addr,
        endian: false,
        be: 0xff << lane,
        lanes,
    }
}

// Executes a request on the words of a region, or refuses it and changes nothing.
fn execute(words: &mut [u64], region: &Region, request: &Request) -> Result<Reply, Refusal>
    requires { length words.old ≡ region.now.granules }
    ensures length { length words.new ≡ length words.old }
    ensures refused { IfErr result (λ refusal. decision request.now region.now ≡ Err refusal) }
    ensures kept { IfErr result (λ _. words.new ≡ words.old) }
{
    let access = decode(request, region)?;
    let granule = access.granule(region);
    let (after, reply) = apply(words[granule], &access);
    words[granule] = after;
    Ok(reply)
}

// Adds at four addresses, one of them refused, and prints each answer with the words after it.
pub(crate) fn report<R: Print>(rt: &R) -> anyhow::Result<()> {
    let region = Region::new(0x1000, 2)?;
    let mut words = [0; 2];
    for addr in [0x1000, 0x1008, 0x1004, 0x1008] {
        match execute(&mut words, &region, &add_one(addr)) {
            Ok(Reply::CompData(lanes)) => {
                let old = lanes[(addr % 16) as usize];
                println!(rt; "{addr:x}: first byte was {old}, words {words:?}")?;
            }
            Ok(Reply::Comp) => println!(rt; "{addr:x}: done, words {words:?}")?,
            Err(refusal) => println!(rt; "{addr:x}: refused {}", refusal_name(refusal))?,
        }
    }
    Ok(())
}
