//! Writes that stand for words which are told of granules.

ghost use Rattle.std.specs.Prelude.{◌≡◌, ◌++◌, ◌^◌, ◌<◌};
ghost use Rattle.std.specs.Int.{to_le_bytes, w64};
ghost use Rattle.chi_watch.specs.WordsTold.{write_at, write_fields};

use chi_events::WordTold;
use chi_fields::ADDRESSES;
use chi_lanes::Reply;
use chi_trace::{Operation, RequestFields, access};

/// The opcode of WriteNoSnpPtl.
const WRITE: u8 = 0x1c;

/// A packet with the bytes of a word in each of its halves.
fn lanes_of(word: u64) -> [u8; 16]
    ensures { result ≡ to_le_bytes w64 word ++ to_le_bytes w64 word }
{
    let mut lanes = [0; 16];
    lanes[..8].copy_from_slice(&word.to_le_bytes());
    lanes[8..].copy_from_slice(&word.to_le_bytes());
    lanes
}

/// WriteNoSnpPtl of a granule's word.
fn write_fields(told: &WordTold) -> RequestFields
    requires { told.now.granule < 2 ^ 49 }
    ensures { result ≡ write_fields told.now }
{
    RequestFields {
        number: told.number,
        src: 0,
        txn: 0,
        opcode: WRITE,
        size: 3,
        addr: 8 * told.granule,
        endian: false,
        be: if told.granule % 2 == 0 { 0xff } else { 0xff00 },
        lanes: lanes_of(told.word),
    }
}

/// The write that stands for a word which is told at this time, not at the opening: WriteNoSnpPtl of the whole granule by requester 0,
/// taken and completed then. A granule past 2^52 bytes has none.
///
/// ```
/// if let Some(write) = write_at(event.time, &told) {
///     ops.push(write)?;
/// }
/// ```
pub fn write_at(time: u64, told: &WordTold) -> Option<Operation>
    ensures { result ≡ write_at time told.now }
{
    if told.granule >= ADDRESSES / 8 {
        return None;
    }
    let fields = write_fields(told);
    let access = access(&fields, &None).ok()?;
    Some(fields.operation(access, time, time, Some(Reply::Comp)))
}
