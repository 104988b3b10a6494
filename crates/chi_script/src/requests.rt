//! The requests of a script.

ghost use Rattle.std.specs.Prelude.{◌≡◌, ◌≢◌, IfOk, IfErr, Ok, Err};
ghost use Rattle.serde_json.specs.View.{view, items_view};
ghost use Rattle.chi_script.specs.Script.{request_of, element_of, requests_of};

use crate::member::Member;
use chi_fields::Request;
use chi_json::{MemberFault, number, stated_bytes};
use serde_json::Value;
use std::alloc::Global;

// The request that an object is, of a requester up to `top`, or the first fault of its members. They are read in
// the order `src`, `txn`, `op`, `size`, `addr`, `endian`, `be`, `lanes`, and further members are ignored.
#[tactic(auto, unfolding(crate::specs::Script::request_of))]
fn request(object: &Value, top: u8) -> Result<Request, MemberFault<Member>>
    ensures { result ≡ request_of top (view object.now) }
{
    let src = number(object, Member::Src, u64::from(top))?;
    let txn = number(object, Member::Txn, 255)?;
    let opcode = number(object, Member::Opcode, 255)?;
    let size = number(object, Member::Size, 7)?;
    let addr = number(object, Member::Addr, u64::MAX)?;
    let endian = number(object, Member::Endian, 1)?;
    let be = number(object, Member::Be, 65535)?;
    let lanes = stated_bytes(object, Member::Lanes)?;
    Ok(Request {
        src: src as u8,
        txn: txn as u8,
        opcode: opcode as u8,
        size: size as u8,
        addr,
        endian: endian == 1,
        be: be as u16,
        lanes,
    })
}

// An element of the array of requests.
#[tactic(auto, unfolding(crate::specs::Script::element_of))]
fn element(value: &Value, top: u8) -> Result<Request, MemberFault<Member>>
    ensures { result ≡ element_of top (view value.now) }
{
    if value.is_object() {
        request(value, top)
    } else {
        Err(MemberFault::BadMember(Member::Requests))
    }
}

// The requests of an array.
#[tactic(auto, unfolding(crate::specs::Script::requests_of))]
pub(crate) fn requests(
    alloc: Global,
    list: &[Value],
    top: u8,
) -> Result<Vec<Request>, MemberFault<Member>>
    ensures ok { IfOk result (λ v. requests_of top (items_view list.now) ≡ Ok v.items) }
    ensures fault { IfErr result (λ f. f ≢ MemberFault.Memory → requests_of top (items_view list.now) ≡ Err f) }
{
    let mut found = Vec::new(alloc);
    for value in list {
        let request = element(value, top)?;
        if found.push(request).is_err() {
            return Err(MemberFault::Memory);
        }
    }
    Ok(found)
}
