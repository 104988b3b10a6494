//! The parts of a text, and their bytes.

ghost use Rattle.std.specs.Prelude.{◌≡◌, ◌≤◌, ◌++◌, OnOk, decimal, flat_map, length};
ghost use Rattle.hex.specs.Hex.{encode_lower};
ghost use Rattle.chi_text.specs.Part.{part_text};

use itoa::write_digits;
use std::alloc::AllocError;

/// A part of a text: some text as it stands, a number in decimal, an address with its most significant byte first, a granule's
/// word with its byte at the lowest address first, an opcode, or a data packet, lane 0 first.
///
/// ```
/// let parts = [Part::Text("at "), Part::Number(40)]; // at 40
/// ```
#[derive(Clone, Copy)]
pub enum Part {
    Text(&'static str),
    Number(u64),
    Address(u64),
    Word(u64),
    Opcode(u8),
    Packet([u8; 16]),
}

/// A number in decimal, made in this room.
fn decimal_in(room: &mut [u8; 32], number: u64) -> &[u8]
    ensures { result.now ≡ decimal number }
{
    let first = write_digits(number, room, 32);
    &room[first..]
}

/// At most 16 bytes, each as two lower-case hex digits, made in this room.
fn hex_in<'a>(room: &'a mut [u8; 32], bytes: &[u8]) -> &'a [u8]
    requires { length bytes.now ≤ 16 }
    ensures { result.now ≡ encode_lower bytes.now }
{
    let digits = &mut room[..2 * bytes.len()];
    hex::encode_to_slice(bytes, digits).unwrap();
    digits
}

impl Part {
    /// Its text, which is made in `room`, but for one that stands.
    ///
    /// ```
    /// let text = Part::Opcode(0x28).text(&mut [0; 32]); // 28
    /// ```
    pub fn text(self, room: &mut [u8; 32]) -> &[u8]
        ensures { result.now ≡ part_text self }
    {
        match self {
            Part::Text(text) => text.as_bytes(),
            Part::Number(number) => decimal_in(room, number),
            Part::Address(addr) => hex_in(room, &addr.to_be_bytes()),
            Part::Word(word) => hex_in(room, &word.to_le_bytes()),
            Part::Opcode(opcode) => hex_in(room, &[opcode]),
            Part::Packet(lanes) => hex_in(room, &lanes),
        }
    }
}

/// Adds some parts to a text, one after the other.
///
/// ```
/// add_parts(&mut text, &[Part::Text("at "), Part::Number(40)])?; // at 40
/// ```
pub fn add_parts(to: &mut Vec<u8>, parts: &[Part]) -> Result<(), AllocError>
    ensures { OnOk result (to.new.items ≡ to.old.items ++ flat_map part_text parts.now) }
{
    let mut room = [0; 32];
    for part in parts {
        to.extend_from_slice(part.text(&mut room))?;
    }
    Ok(())
}
