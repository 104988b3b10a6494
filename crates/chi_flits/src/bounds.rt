//! What is true of every flit, since its numbers fit their types. Each function does nothing: its contract is for proofs.

ghost use Rattle.std.specs.Prelude.{All, IfSome};
ghost use Rattle.chi_trace.specs.RequestFields.{IsPacket};
ghost use Rattle.chi_flits.specs.Accepted.{HasChunks, IsChunk};

use crate::flit::{Chunk, DataFlit, FlitKind};

/// Sixteen byte enables and sixteen bytes are a packet.
fn packet_fits(be: u16, lanes: [u8; 16])
    ensures { IsPacket be lanes }
{}

/// So are those of a quarter of a line, where they are there.
fn chunk_fits(chunk: Option<Chunk>)
    ensures { IfSome chunk IsChunk }
{
    if let Some(chunk) = chunk {
        packet_fits(chunk.be, chunk.lanes);
    }
}

/// And those of all four.
fn data_fits(flit: &DataFlit)
    ensures { All (λ c. IfSome c IsChunk) flit.now.chunks }
{
    chunk_fits(flit.chunks[0]);
    chunk_fits(flit.chunks[1]);
    chunk_fits(flit.chunks[2]);
    chunk_fits(flit.chunks[3]);
}

/// The chunks that a flit of a kind has fit.
pub(crate) fn kind_fits(kind: &FlitKind)
    ensures { HasChunks kind.now }
{
    if let FlitKind::WriteData(flit) = kind {
        data_fits(flit);
    }
}
