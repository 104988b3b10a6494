//! What the members of a flit's object state, by its channel. A number of which a digit is not known is `None`.

ghost use Rattle.std.specs.Prelude.{◌≡◌};
ghost use Rattle.chi_flit_text.specs.Stated.{read_numbers, request_numbers, response_numbers, stated_of, write_numbers};

use crate::channel::Channel;
use crate::hex_member::{digits, hex_number, hex_or_zero, hex_u8, hex_u16};
use crate::lanes::chunks;
use crate::member::FlitMember;
use chi_fields::ADDRESSES;
use chi_flits::Chunk;
use chi_json::{JsonObject, MemberFault};

/// The members of a request.
#[derive(Clone, Copy)]
pub(crate) struct RequestNumbers {
    pub src: Option<u16>,
    pub txn: Option<u16>,
    pub opcode: Option<u8>,
    pub size: Option<u8>,
    pub addr: Option<u64>,
    pub endian: Option<u8>,
    pub excl: Option<u8>,
}

/// The members of a response.
#[derive(Clone, Copy)]
pub(crate) struct ResponseNumbers {
    pub tgt: Option<u16>,
    pub txn: Option<u16>,
    pub opcode: Option<u8>,
    pub resp_err: Option<u8>,
    pub dbid: Option<u16>,
}

/// The members of data. `node` is `tgt` of data to a requester, and `src` of data from one. `width` counts the quarters of the
/// line that the flit has, and `chunks` are these, from its first lane on.
#[derive(Clone, Copy)]
pub(crate) struct DataNumbers {
    pub node: Option<u16>,
    pub txn: Option<u16>,
    pub opcode: Option<u8>,
    pub resp_err: Option<u8>,
    pub data_id: Option<u8>,
    pub width: usize,
    pub chunks: [Option<Chunk>; 4],
}

/// The members of a flit, by its channel.
#[derive(Clone, Copy)]
pub(crate) enum Numbers {
    Request(RequestNumbers),
    Response(ResponseNumbers),
    ReadData(DataNumbers),
    WriteData(DataNumbers),
}

/// What the members of a request state.
#[tactic(auto, unfolding(crate::specs::Stated::request_numbers))]
fn request_numbers<O: JsonObject>(object: &O) -> Result<RequestNumbers, MemberFault<FlitMember>>
    ensures { result ≡ request_numbers (O.data_of object.now) }
{
    Ok(RequestNumbers {
        src: hex_u16(object, FlitMember::Src, 0xffff)?,
        txn: hex_u16(object, FlitMember::Txn, 0xffff)?,
        opcode: hex_u8(object, FlitMember::Opcode, 0xff)?,
        size: hex_u8(object, FlitMember::Size, 7)?,
        addr: hex_number(object, FlitMember::Addr, ADDRESSES - 1)?,
        endian: hex_or_zero(object, FlitMember::Endian, 1)?,
        excl: hex_or_zero(object, FlitMember::Excl, 1)?,
    })
}

/// What the members of a response state.
#[tactic(auto, unfolding(crate::specs::Stated::response_numbers))]
fn response_numbers<O: JsonObject>(object: &O) -> Result<ResponseNumbers, MemberFault<FlitMember>>
    ensures { result ≡ response_numbers (O.data_of object.now) }
{
    Ok(ResponseNumbers {
        tgt: hex_u16(object, FlitMember::Tgt, 0xffff)?,
        txn: hex_u16(object, FlitMember::Txn, 0xffff)?,
        opcode: hex_u8(object, FlitMember::Opcode, 0xff)?,
        resp_err: hex_u8(object, FlitMember::RespErr, 3)?,
        dbid: hex_u16(object, FlitMember::Dbid, 0xffff)?,
    })
}

/// What the members of data to a requester state.
#[tactic(auto, unfolding(crate::specs::Stated::read_numbers))]
fn read_numbers<O: JsonObject>(object: &O) -> Result<DataNumbers, MemberFault<FlitMember>>
    ensures { result ≡ read_numbers (O.data_of object.now) }
{
    let node = hex_u16(object, FlitMember::Tgt, 0xffff)?;
    let txn = hex_u16(object, FlitMember::Txn, 0xffff)?;
    let opcode = hex_u8(object, FlitMember::Opcode, 0xff)?;
    let resp_err = hex_u8(object, FlitMember::RespErr, 3)?;
    let data_id = hex_u8(object, FlitMember::DataId, 3)?;
    let data = digits(object, FlitMember::Data, 32)?;
    Ok(DataNumbers {
        node,
        txn,
        opcode,
        resp_err,
        data_id,
        width: data.len() / 32,
        chunks: chunks(&[], data),
    })
}

/// What the members of data from a requester state.
#[tactic(auto, unfolding(crate::specs::Stated::write_numbers))]
fn write_numbers<O: JsonObject>(object: &O) -> Result<DataNumbers, MemberFault<FlitMember>>
    ensures { result ≡ write_numbers (O.data_of object.now) }
{
    let node = hex_u16(object, FlitMember::Src, 0xffff)?;
    let txn = hex_u16(object, FlitMember::Txn, 0xffff)?;
    let opcode = hex_u8(object, FlitMember::Opcode, 0xff)?;
    let data_id = hex_u8(object, FlitMember::DataId, 3)?;
    let be = digits(object, FlitMember::Be, 4)?;
    let data = digits(object, FlitMember::Data, 32)?;
    if data.len() / 8 != be.len() {
        return Err(MemberFault::BadMember(FlitMember::Be));
    }
    let resp_err = hex_or_zero(object, FlitMember::RespErr, 3)?;
    Ok(DataNumbers {
        node,
        txn,
        opcode,
        resp_err,
        data_id,
        width: data.len() / 32,
        chunks: chunks(be, data),
    })
}

/// What the members of a flit of a channel state, or the first fault of these members.
#[tactic(auto, unfolding(crate::specs::Stated::stated_of))]
pub(crate) fn stated_numbers<O: JsonObject>(
    channel: Channel,
    object: &O,
) -> Result<Numbers, MemberFault<FlitMember>>
    ensures { result ≡ stated_of channel (O.data_of object.now) }
{
    match channel {
        Channel::Request => Ok(Numbers::Request(request_numbers(object)?)),
        Channel::Response => Ok(Numbers::Response(response_numbers(object)?)),
        Channel::ReadData => Ok(Numbers::ReadData(read_numbers(object)?)),
        Channel::WriteData => Ok(Numbers::WriteData(write_numbers(object)?)),
    }
}
