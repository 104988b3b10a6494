//! The requests of a trace, as its text has them.

ghost use Rattle.std.specs.Prelude.{◌≡◌};
ghost use Rattle.chi_reading.specs.Requests.{fields_of, stated_request};

use crate::member::Member;
use chi_json::{JsonObject, MemberFault, number as number_in, stated_bytes};
use chi_trace::RequestFields;

/// The fields of a request that an object states, with no data: its byte enables and its lanes are 0. `number` says which part
/// of the input the object is. The fields are read in the order `src`, `txn`, `op`, `size`, `addr`, `endian`.
#[tactic(auto, unfolding(crate::specs::Requests::fields_of))]
pub(crate) fn request_fields<O: JsonObject>(
    number: u64,
    object: &O,
) -> Result<RequestFields, MemberFault<Member>>
    ensures { result ≡ fields_of number (O.data_of object.now) }
{
    let src = number_in(object, Member::Src, 65535)?;
    let txn = number_in(object, Member::Txn, 65535)?;
    let opcode = number_in(object, Member::Opcode, 255)?;
    let size = number_in(object, Member::Size, 7)?;
    let addr = number_in(object, Member::Addr, u64::MAX)?;
    let endian = number_in(object, Member::Endian, 1)?;
    Ok(RequestFields {
        number,
        src: src as u16,
        txn: txn as u16,
        opcode: opcode as u8,
        size: size as u8,
        addr,
        endian: endian == 1,
        be: 0,
        lanes: [0; 16],
    })
}

/// The request that an object states, with its data, or the first fault of its members: those of `request_fields`, and
/// then `be` and `lanes`.
#[tactic(auto, unfolding(crate::specs::Requests::stated_request))]
pub(crate) fn request_with_data<O: JsonObject>(
    number: u64,
    object: &O,
) -> Result<RequestFields, MemberFault<Member>>
    ensures { result ≡ stated_request number (O.data_of object.now) }
{
    let fields = request_fields(number, object)?;
    let be = number_in(object, Member::Be, 65535)?;
    let lanes = stated_bytes(object, Member::Lanes)?;
    Ok(RequestFields {
        be: be as u16,
        lanes,
        ..fields
    })
}
