//! The flit of what its members state, or the first of its members that is not known and is looked at.

ghost use Rattle.std.specs.Prelude.{◌≡◌, ◌<◌};
ghost use Rattle.chi_flit_text.specs.FlitText.{is_data_id, kind_of, placed, quarter_of, quarters_of, read_flit, request_flit, response_flit, write_flit};

use crate::fault::FlitLineFault;
use crate::looked_at::{has_addr, has_excl, has_write_error, looked_at};
use crate::member::FlitMember;
use crate::numbers::{DataNumbers, Numbers, RequestNumbers, ResponseNumbers};
use chi_flits::{
    Chunk, DataFlit, FlitKind, RequestFlit, ResponseFlit, gives_dbid, is_atomic, is_comp,
    is_read_data, is_response, is_write_data, takes_txn,
};

/// The request of this number.
#[tactic(auto, unfolding(crate::specs::FlitText::request_flit))]
fn request(number: u64, numbers: RequestNumbers) -> Result<RequestFlit, FlitLineFault>
    ensures { result ≡ request_flit number numbers }
{
    let opcode = looked_at(true, FlitMember::Opcode, 0, numbers.opcode)?;
    let src = looked_at(takes_txn(opcode), FlitMember::Src, 0, numbers.src)?;
    let txn = looked_at(takes_txn(opcode), FlitMember::Txn, 0, numbers.txn)?;
    let size = looked_at(has_addr(opcode), FlitMember::Size, 0, numbers.size)?;
    let addr = looked_at(has_addr(opcode), FlitMember::Addr, 0, numbers.addr)?;
    let endian = looked_at(is_atomic(opcode), FlitMember::Endian, 0, numbers.endian)?;
    let excl = looked_at(has_excl(opcode), FlitMember::Excl, 0, numbers.excl)?;
    Ok(RequestFlit {
        number,
        src,
        txn,
        opcode,
        size,
        addr,
        endian: endian == 1,
        excl: excl == 1,
    })
}

/// The response.
#[tactic(auto, unfolding(crate::specs::FlitText::response_flit))]
fn response(numbers: ResponseNumbers) -> Result<ResponseFlit, FlitLineFault>
    ensures { result ≡ response_flit numbers }
{
    let opcode = looked_at(true, FlitMember::Opcode, 0, numbers.opcode)?;
    let is_looked_at = is_response(opcode);
    let tgt = looked_at(is_looked_at, FlitMember::Tgt, 0, numbers.tgt)?;
    let txn = looked_at(is_looked_at, FlitMember::Txn, 0, numbers.txn)?;
    let resp_err = looked_at(is_comp(opcode), FlitMember::RespErr, 0, numbers.resp_err)?;
    let dbid = looked_at(gives_dbid(opcode), FlitMember::Dbid, 0, numbers.dbid)?;
    Ok(ResponseFlit {
        tgt,
        txn,
        opcode,
        resp_err,
        dbid,
    })
}

/// Whether a flit of so many quarters of the line may have this DataID.
fn is_data_id(width: usize, data_id: u8) -> bool
    ensures { result ≡ is_data_id width data_id }
{
    match width {
        1 => true,
        2 => data_id % 2 == 0,
        _ => data_id == 0,
    }
}

/// A quarter of the line, where the flit has it: its first is that of the DataID.
fn quarter(chunks: &[Option<Chunk>; 4], data_id: usize, place: usize) -> Option<Chunk>
    requires { place < 4 }
    ensures { result ≡ quarter_of chunks.now data_id place }
{
    if place < data_id {
        None
    } else {
        chunks[place - data_id]
    }
}

/// The quarters of the line that the flit has, at their places.
fn placed(chunks: &[Option<Chunk>; 4], data_id: u8) -> [Option<Chunk>; 4]
    ensures { result ≡ placed chunks.now data_id }
{
    let data_id = usize::from(data_id);
    [
        quarter(chunks, data_id, 0),
        quarter(chunks, data_id, 1),
        quarter(chunks, data_id, 2),
        quarter(chunks, data_id, 3),
    ]
}

/// The quarters of the line that the flit has, and none where they are not looked at.
#[tactic(auto, unfolding(crate::specs::FlitText::quarters_of))]
fn quarters(
    is_looked_at: bool,
    data_id: u8,
    numbers: DataNumbers,
) -> Result<[Option<Chunk>; 4], FlitLineFault>
    ensures { result ≡ quarters_of is_looked_at data_id numbers }
{
    if !is_looked_at {
        return Ok([None; 4]);
    }
    if !is_data_id(numbers.width, data_id) {
        return Err(FlitLineFault::DataId);
    }
    Ok(placed(&numbers.chunks, data_id))
}

/// Data to a requester.
#[tactic(auto, unfolding(crate::specs::FlitText::read_flit))]
fn read_data(numbers: DataNumbers) -> Result<DataFlit, FlitLineFault>
    ensures { result ≡ read_flit numbers }
{
    let opcode = looked_at(true, FlitMember::Opcode, 0, numbers.opcode)?;
    let is_looked_at = is_read_data(opcode);
    let node = looked_at(is_looked_at, FlitMember::Tgt, 0, numbers.node)?;
    let txn = looked_at(is_looked_at, FlitMember::Txn, 0, numbers.txn)?;
    let resp_err = looked_at(is_looked_at, FlitMember::RespErr, 0, numbers.resp_err)?;
    let data_id = looked_at(is_looked_at, FlitMember::DataId, 0, numbers.data_id)?;
    let chunks = quarters(is_looked_at, data_id, numbers)?;
    Ok(DataFlit {
        node,
        txn,
        opcode,
        resp_err,
        chunks,
    })
}

/// Data from a requester.
#[tactic(auto, unfolding(crate::specs::FlitText::write_flit))]
fn write_data(numbers: DataNumbers) -> Result<DataFlit, FlitLineFault>
    ensures { result ≡ write_flit numbers }
{
    let opcode = looked_at(true, FlitMember::Opcode, 0, numbers.opcode)?;
    let is_looked_at = is_write_data(opcode);
    let node = looked_at(is_looked_at, FlitMember::Src, 0, numbers.node)?;
    let txn = looked_at(is_looked_at, FlitMember::Txn, 0, numbers.txn)?;
    let data_id = looked_at(is_looked_at, FlitMember::DataId, 0, numbers.data_id)?;
    let resp_err = looked_at(
        has_write_error(opcode),
        FlitMember::RespErr,
        0,
        numbers.resp_err,
    )?;
    let chunks = quarters(is_looked_at, data_id, numbers)?;
    Ok(DataFlit {
        node,
        txn,
        opcode,
        resp_err,
        chunks,
    })
}

/// What passes at the port, of what the members of a flit state. A request has this number.
#[tactic(auto, unfolding(crate::specs::FlitText::kind_of))]
pub(crate) fn kind(number: u64, numbers: Numbers) -> Result<FlitKind, FlitLineFault>
    ensures { result ≡ kind_of number numbers }
{
    match numbers {
        Numbers::Request(numbers) => Ok(FlitKind::Request(request(number, numbers)?)),
        Numbers::Response(numbers) => Ok(FlitKind::Response(response(numbers)?)),
        Numbers::ReadData(numbers) => Ok(FlitKind::ReadData(read_data(numbers)?)),
        Numbers::WriteData(numbers) => Ok(FlitKind::WriteData(write_data(numbers)?)),
    }
}
