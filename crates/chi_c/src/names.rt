//! Names in a buffer of the caller's.

ghost use Rattle.std.specs.Prelude.{◌≡◌, length};
ghost use Rattle.chi_fields.specs.Opcode.{opcode_name};
ghost use Rattle.chi_c.specs.Names.{result_name, version, with_name};

use chi_fields::{Refusal, RegionFault, op_name, refusal_name, region_fault_name};

// The version of the library, as in the header.
const VERSION: &str = "0.1.0";

// Writes a name and the 0 that ends it, where the buffer has room for both, and answers the name's length.
fn write_name(name: &str, buffer: &mut [u8]) -> usize
    ensures length { result ≡ length name.now }
    ensures written { buffer.new ≡ with_name name.now buffer.old }
{
    let name = name.as_bytes();
    let len = name.len();
    if len < buffer.len() {
        buffer[..len].copy_from_slice(name);
        buffer[len] = 0;
    }
    len
}

// The name of a result, or no text of a number that no call answers.
fn result_name(result_number: u32) -> &'static str
    ensures { result.now ≡ result_name result_number }
{
    match result_number {
        0 => "Done",
        1 => refusal_name(Refusal::UnknownOpcode),
        2 => refusal_name(Refusal::ReservedSize),
        3 => refusal_name(Refusal::SizeOutOfProfile),
        4 => refusal_name(Refusal::Misaligned),
        5 => refusal_name(Refusal::OutOfRegion),
        6 => refusal_name(Refusal::BadByteEnable),
        17 => region_fault_name(RegionFault::BaseNotLineAligned),
        18 => region_fault_name(RegionFault::GranuleCount),
        19 => region_fault_name(RegionFault::EndPastAddresses),
        _ => "",
    }
}

/// Writes the name of an opcode, as `AtomicLoad.ADD` of 0x30, and `Unknown` of one that names no request here.
///
/// The result is the name's length in bytes, without the 0 that ends it. Where the buffer is not longer than that,
/// nothing is written; 20 bytes are enough for every name.
///
/// ```
/// let length = chi_op_name(0x30, &mut buffer);
/// ```
#[unsafe(no_mangle)]
pub extern "C" fn chi_op_name(opcode: u8, buffer: &mut [u8]) -> usize
    ensures length { result ≡ length (opcode_name opcode) }
    ensures written { buffer.new ≡ with_name (opcode_name opcode) buffer.old }
{
    write_name(op_name(opcode), buffer)
}

/// Writes the name of a result of these calls: `Done` of 0, `Misaligned` of 4, `GranuleCount` of 18, and no text of a
/// number that no call answers.
///
/// The result is the name's length in bytes, without the 0 that ends it. Where the buffer is not longer than that,
/// nothing is written; 20 bytes are enough for every name.
///
/// ```
/// let length = chi_result_name(4, &mut buffer);
/// ```
#[unsafe(no_mangle)]
pub extern "C" fn chi_result_name(result_number: u32, buffer: &mut [u8]) -> usize
    ensures length { result ≡ length (result_name result_number) }
    ensures written { buffer.new ≡ with_name (result_name result_number) buffer.old }
{
    write_name(result_name(result_number), buffer)
}

/// Writes the version of the library, as `0.1.0`; the header's `CHI_VERSION` is that of the header.
///
/// The result is its length in bytes, without the 0 that ends it. Where the buffer is not longer than that, nothing is
/// written; 20 bytes are enough.
///
/// ```
/// let length = chi_version(&mut buffer);
/// ```
#[unsafe(no_mangle)]
pub extern "C" fn chi_version(buffer: &mut [u8]) -> usize
    ensures length { result ≡ length version }
    ensures written { buffer.new ≡ with_name version buffer.old }
{
    write_name(VERSION, buffer)
}
