//! Requests of a trace, and what a home decides of one.

ghost use Rattle.std.specs.Prelude.{◌≡◌};
ghost use Rattle.chi_trace.specs.RequestFields.{access_of, as_operation, request_of};

use crate::operation::Operation;
use chi_fields::{Access, Refusal, Region, Request, decode};
use chi_lanes::Reply;

/// A request of a trace: a request and its data packet as a home takes them, but of any of 65,536 requesters and
/// transactions. Nothing is matched by these two; answers tell them again. `number` says which part of the input told of the
/// request, counted as the input counts. Where its data are still to come, its byte enables and lanes are 0.
///
/// Source: Arm IHI 0050 Issue B, request fields and data packet.
#[derive(Clone, Copy, Debug)]
pub struct RequestFields {
    pub number: u64,
    pub src: u16,
    pub txn: u16,
    pub opcode: u8,
    pub size: u8,
    pub addr: u64,
    pub endian: bool,
    pub be: u16,
    pub lanes: [u8; 16],
}

impl RequestFields {
    /// The request as a home decides it, for which requester and transaction do not count: they are 0.
    fn request(&self) -> Request
        ensures { result ≡ request_of self.now }
    {
        Request {
            src: 0,
            txn: 0,
            opcode: self.opcode,
            size: self.size,
            addr: self.addr,
            endian: self.endian,
            be: self.be,
            lanes: self.lanes,
        }
    }

    /// The operation of the request, which has this access, was under way from `start` to `end`, and got this reply.
    ///
    /// ```
    /// let op = fields.operation(access, 10, 20, Some(Reply::Comp));
    /// ```
    pub fn operation(&self, access: Access, start: u64, end: u64, reply: Option<Reply>) -> Operation
        ensures { result ≡ as_operation self.now access start end reply }
    {
        Operation {
            number: self.number,
            src: self.src,
            txn: self.txn,
            access,
            start,
            end,
            reply,
        }
    }
}

/// The access that a home decides of a request: of a region, or of all addresses below 2^52, for which the line of 64 bytes
/// around the address stands.
///
/// ```
/// let access = access(&fields, &None)?;
/// ```
pub fn access(fields: &RequestFields, region: &Option<Region>) -> Result<Access, Refusal>
    ensures { result ≡ access_of region.now fields.now }
{
    let request = fields.request();
    match region {
        Some(region) => decode(&request, region),
        None => match Region::new(fields.addr / 64 * 64, 8) {
            Ok(line) => decode(&request, &line),
            Err(_) => Err(Refusal::OutOfRegion),
        },
    }
}
