//! The lanes and the byte enables of a request's operations.

ghost use Rattle.std.specs.Prelude.{◌≡◌};
ghost use Rattle.chi_flits.specs.Answers.{chunk_at};
ghost use Rattle.chi_flits.specs.Told.{are_whole, enables_at, kept, only, with_chunks};

use crate::flit::{Chunk, DataFlit, RequestFlit};
use crate::opcode::is_write;

/// The byte of a lane whose bit is 1, and else 0.
fn kept(bits: u16, lanes: &[u8; 16], lane: usize) -> u8
    ensures { result ≡ kept bits lanes.now lane }
{
    if lane < 16 && bits >> lane & 1 == 1 {
        lanes[lane]
    } else {
        0
    }
}

/// The bytes of the lanes whose bit is 1, and 0 in all others.
pub(crate) fn only(bits: u16, lanes: &[u8; 16]) -> [u8; 16]
    ensures { result ≡ only bits lanes.now }
{
    [
        kept(bits, lanes, 0),
        kept(bits, lanes, 1),
        kept(bits, lanes, 2),
        kept(bits, lanes, 3),
        kept(bits, lanes, 4),
        kept(bits, lanes, 5),
        kept(bits, lanes, 6),
        kept(bits, lanes, 7),
        kept(bits, lanes, 8),
        kept(bits, lanes, 9),
        kept(bits, lanes, 10),
        kept(bits, lanes, 11),
        kept(bits, lanes, 12),
        kept(bits, lanes, 13),
        kept(bits, lanes, 14),
        kept(bits, lanes, 15),
    ]
}

/// What is at a quarter of a line.
pub(crate) fn chunk_at(chunks: &[Option<Chunk>; 4], quarter: usize) -> Option<Chunk>
    ensures { result ≡ chunk_at chunks.now quarter }
{
    if quarter < 4 { chunks[quarter] } else { None }
}

/// The byte enables that an operation has of those of its quarter.
pub(crate) fn enables_at(request: &RequestFlit, operation: u8, be: u16) -> u16
    ensures { result ≡ enables_at request.now operation be }
{
    if is_write(request.opcode) {
        be & request.lanes_at(operation)
    } else {
        be
    }
}

/// The data with those of one flit more.
pub(crate) fn with_chunks(flit: &DataFlit, chunks: &[Option<Chunk>; 4]) -> [Option<Chunk>; 4]
    ensures { result ≡ with_chunks flit.now chunks.now }
{
    [
        flit.chunks[0].or(chunks[0]),
        flit.chunks[1].or(chunks[1]),
        flit.chunks[2].or(chunks[2]),
        flit.chunks[3].or(chunks[3]),
    ]
}

/// Whether each operation has its data.
pub(crate) fn are_whole(request: &RequestFlit, chunks: &[Option<Chunk>; 4]) -> bool
    ensures { result ≡ are_whole request.now chunks.now }
{
    (0..request.count()).all(|operation| chunk_at(chunks, request.quarter_at(operation)).is_some())
}
