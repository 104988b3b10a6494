//! The bytes of an answer that no legal answer has.

ghost use Rattle.std.specs.Prelude.{◌≡◌, ◌++◌, IfOk, OnOk, flat_map};
ghost use Rattle.std.specs.List.{list_all};
ghost use Rattle.chi_excerpt.specs.WrongBytes.{byte_in, further_byte_text, has_other, is_wrong, place_text, wrong_byte_text, wrong_bytes, wrong_in, wrong_line};

use chi_fields::Access;
use chi_lanes::Reply;
use chi_text::{Part, add_parts};
use chi_trace::Operation;
use std::alloc::{AllocError, Global};

/// A byte of an answer: its address, and its value.
#[derive(Clone, Copy, Debug)]
pub(crate) struct ReturnedByte {
    pub(crate) addr: u64,
    pub(crate) value: u8,
}

/// The byte of a data packet at an address.
fn byte_in(lanes: &[u8; 16], addr: u64) -> ReturnedByte
    ensures { result ≡ byte_in lanes.now addr }
{
    ReturnedByte {
        addr,
        value: lanes[(addr % 16) as usize],
    }
}

/// Whether an answer has data, and another byte at the address of this one.
fn has_other(byte: ReturnedByte, reply: &Reply) -> bool
    ensures { result ≡ has_other byte reply.now }
{
    match reply {
        Reply::Comp => false,
        Reply::CompData(lanes) => byte_in(lanes, byte.addr).value != byte.value,
    }
}

/// Whether each of some answers has another byte at the address of this one.
fn have_other(byte: ReturnedByte, replies: &[Reply]) -> bool
    ensures { result ≡ list_all (has_other byte) replies.now }
{
    replies.iter().all(|reply| has_other(byte, reply))
}

/// Whether some answers are legal, and each has another byte at the address of this one.
fn is_wrong(legal: &[Reply], byte: ReturnedByte) -> bool
    ensures { result ≡ is_wrong legal.now byte }
{
    legal.len() > 0 && have_other(byte, legal)
}

/// The bytes of a data packet that are wrong.
fn wrong_in(
    alloc: Global,
    access: &Access,
    legal: &[Reply],
    lanes: &[u8; 16],
) -> Result<Vec<ReturnedByte>, AllocError>
    ensures { IfOk result (λ wrong. wrong.items ≡ wrong_in access.now legal.now lanes.now) }
{
    let first = access.addr();
    let mut wrong = Vec::new(alloc);
    for place in 0..access.len() {
        let byte = byte_in(lanes, first + place as u64);
        if is_wrong(legal, byte) {
            wrong.push(byte)?;
        }
    }
    Ok(wrong)
}

/// The bytes of an operation's answer that are wrong, where it has data.
pub(crate) fn wrong_bytes(
    alloc: Global,
    op: &Operation,
    legal: &[Reply],
) -> Result<Vec<ReturnedByte>, AllocError>
    ensures { IfOk result (λ wrong. wrong.items ≡ wrong_bytes op.now legal.now) }
{
    match op.reply {
        Some(Reply::CompData(lanes)) => wrong_in(alloc, &op.access, legal, &lanes),
        Some(Reply::Comp) | None => Ok(Vec::new(alloc)),
    }
}

/// The place of an address in its granule.
pub(crate) fn add_place(to: &mut Vec<u8>, addr: u64) -> Result<(), AllocError>
    ensures { OnOk result (to.new.items ≡ to.old.items ++ place_text addr) }
{
    add_parts(to, &[Part::Text("+"), Part::Number(addr % 8)])
}

/// A byte by its place.
fn add_wrong_byte(to: &mut Vec<u8>, byte: ReturnedByte) -> Result<(), AllocError>
    ensures { OnOk result (to.new.items ≡ to.old.items ++ wrong_byte_text byte) }
{
    add_place(to, byte.addr)?;
    add_parts(to, &[Part::Text(" is "), Part::Opcode(byte.value)])
}

/// A byte after another one.
fn add_further_byte(to: &mut Vec<u8>, byte: ReturnedByte) -> Result<(), AllocError>
    ensures { OnOk result (to.new.items ≡ to.old.items ++ further_byte_text byte) }
{
    add_parts(to, &[Part::Text(", ")])?;
    add_wrong_byte(to, byte)
}

/// Bytes after another one.
fn add_further(to: &mut Vec<u8>, bytes: &[ReturnedByte]) -> Result<(), AllocError>
    ensures { OnOk result (to.new.items ≡ to.old.items ++ flat_map further_byte_text bytes.now) }
{
    for byte in bytes {
        add_further_byte(to, *byte)?;
    }
    Ok(())
}

/// The line of the bytes that are wrong, where there are some.
#[tactic(auto, unfolding(crate::specs::WrongBytes::wrong_line))]
pub(crate) fn add_wrong(to: &mut Vec<u8>, bytes: &[ReturnedByte]) -> Result<(), AllocError>
    ensures { OnOk result (to.new.items ≡ to.old.items ++ wrong_line bytes.now) }
{
    let Some((first, others)) = bytes.split_first() else {
        return Ok(());
    };
    add_parts(to, &[Part::Text("    unlike each of these: ")])?;
    add_wrong_byte(to, *first)?;
    add_further(to, others)?;
    add_parts(to, &[Part::Text("\n")])
}
