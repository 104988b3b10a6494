//! One operation of a trace.

ghost use Rattle.std.specs.Prelude.{◌≡◌};
ghost use Rattle.chi_trace.specs.Fields.{opcode_of, size_of, size_of_length};
ghost use Rattle.chi_trace.specs.Granules.{granule_of};

use chi_fields::{Access, Kind};
use chi_lanes::Reply;

/// An operation that was observed: whose it was, what it did, what was answered, and when.
///
/// `number` says which part of the input told of it, counted as the input counts. `src` is its requester's number and `txn`
/// its number for the transaction, by which nothing is matched. `start` is a time at or before the one at which the home took
/// the request, and `end` one at or after its response; of an operation that was still open when the observation ended, it is
/// `u64::MAX`. Both are counts of one clock; only their order is looked at. `reply` is `None` where what was answered was not
/// seen, or does not say what was done: such an operation may have taken effect or not.
#[derive(Clone, Copy, Debug)]
pub struct Operation {
    pub number: u64,
    pub src: u16,
    pub txn: u16,
    pub access: Access,
    pub start: u64,
    pub end: u64,
    pub reply: Option<Reply>,
}

/// The size that stands for so many bytes, which are 1, 2, 4 or 8.
fn size_of_length(length: usize) -> u8
    ensures { result ≡ size_of_length length }
{
    match length {
        1 => 0,
        2 => 1,
        4 => 2,
        _ => 3,
    }
}

impl Operation {
    /// The number of its granule: its address divided by 8.
    ///
    /// ```
    /// let granule = op.granule(); // 513, of an operand at 0x1008
    /// ```
    pub fn granule(&self) -> u64
        ensures { result ≡ granule_of self.now }
    {
        self.access.addr() / 8
    }

    /// The opcode of its request.
    ///
    /// ```
    /// let opcode = op.opcode(); // 0x30, of AtomicLoad ADD
    /// ```
    #[tactic(auto, using(crate::proofs::Fields::op_below))]
    pub fn opcode(&self) -> u8
        ensures { result ≡ opcode_of self.now.access.kind }
    {
        match self.access.kind() {
            Kind::Read => 0x04,
            Kind::Write => 0x1c,
            Kind::Store(op) => 0x28 + op.number(),
            Kind::Load(op) => 0x30 + op.number(),
            Kind::Swap => 0x38,
            Kind::Compare => 0x39,
        }
    }

    /// The size of its request, which stands for 2^size bytes; of an AtomicCompare both values together.
    ///
    /// ```
    /// let size = op.size(); // 3, of an operand of eight bytes
    /// ```
    pub fn size(&self) -> u8
        ensures { result ≡ size_of self.now.access.kind self.now.access.len }
    {
        let size = size_of_length(self.access.len());
        match self.access.kind() {
            Kind::Compare => size + 1,
            _ => size,
        }
    }
}
