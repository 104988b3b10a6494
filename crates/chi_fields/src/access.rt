//! An accepted request: what it does, where, and with which data.

ghost use Rattle.std.specs.Prelude.{◌≡◌, ℕ, ◌%◌, ◌^◌, ◌<◌, slice_index, IsTrue};
ghost use Rattle.chi_fields.specs.Extent.{lies_in, granule_of};
ghost use Rattle.chi_fields.specs.Access.{IsLawful, IsLen, enables_fit, lane_of};
ghost use Rattle.chi_fields.specs.Refusal.{access_as, len_of};

use crate::kind::Kind;
use crate::region::Region;
use crate::request::Request;
use std::marker::Model;

// A data packet has 16 byte enables.
fn byte_enables(be: u16) -> u16
    ensures same { result ≡ be }
    ensures bits { result < 2 ^ 16 }
{
    be
}

// A data packet has 16 bytes.
fn packet(lanes: [u8; 16]) -> [u8; 16]
    ensures same { result ≡ lanes }
    ensures bytes { (i : ℕ) → slice_index result i < 256 }
{
    lanes
}

/// What an accepted request does, at which address, and with which data. Only `decode` makes one.
///
/// Its length is 1, 2, 4 or 8 bytes, its address is a multiple of that, and its byte enables are those of its
/// window.
///
/// Source: Arm IHI 0050 Issue B, sizes, operand placement and byte enables.
#[derive(Clone, Copy, Debug)]
pub struct Access {
    kind: Kind,
    addr: u64,
    len: u8,
    endian: bool,
    enables: u16,
    lanes: [u8; 16],
}

impl Model for Access {
    ghost use Rattle.chi_fields.specs.Access.{Access, IsLawful};

    ghost Value = { Access };

    ghost view = { λ a. record { kind = a.kind; addr = a.addr; len = a.len; endian = a.endian; enables = a.enables; lanes = a.lanes } };

    ghost invariant = { λ a. IsLawful (record { kind = a.kind; addr = a.addr; len = a.len; endian = a.endian; enables = a.enables; lanes = a.lanes }) };

    ghost inverse = { λ o. record { kind = o.kind; addr = o.addr; len = o.len; endian = o.endian; enables = o.enables; lanes = o.lanes } };
}

impl Access {
    // What the request describes, as an access of this kind and length.
    pub(crate) fn of(request: &Request, kind: Kind, len: u8) -> Access
        requires part { IsLen len }
        requires aligned { request.now.addr % len ≡ 0 }
        requires enabled { IsTrue (enables_fit kind len (lane_of request.now.addr) request.now.be) }
        requires length { len ≡ len_of kind request.now.size }
        ensures { result ≡ access_as kind request.now }
    {
        let enables = byte_enables(request.be);
        let lanes = packet(request.lanes);
        Access {
            kind,
            addr: request.addr,
            len,
            endian: request.endian,
            enables,
            lanes,
        }
    }

    /// What the access does.
    pub fn kind(&self) -> Kind
        ensures value { result ≡ self.now.kind }
        ensures lawful { IsLawful self.now }
    {
        self.kind
    }

    /// The address of the operand's first byte.
    pub fn addr(&self) -> u64
        ensures value { result ≡ self.now.addr }
        ensures lawful { IsLawful self.now }
    {
        self.addr
    }

    /// The lane of the operand's first byte, 0 to 15: the byte of address `x` stands in lane `x mod 16` of the data
    /// packet, of what is sent and of what is returned.
    ///
    /// ```
    /// let first = access.lanes()[access.lane()];
    /// ```
    ///
    /// Source: Arm IHI 0050 Issue B, operand placement.
    pub fn lane(&self) -> usize
        ensures { result ≡ lane_of self.now.addr }
    {
        (self.addr % 16) as usize
    }

    /// The operand's length: 1, 2, 4 or 8 bytes.
    pub fn len(&self) -> usize
        ensures value { result ≡ self.now.len }
        ensures lawful { IsLawful self.now }
    {
        usize::from(self.len)
    }

    /// The request's byte order: true is big-endian. It is kept also where the access's kind ignores it.
    pub fn endian(&self) -> bool
        ensures { result ≡ self.now.endian }
    {
        self.endian
    }

    /// The request's byte enables: bit `i` is lane `i`. A read ignores them.
    pub fn enables(&self) -> u16
        ensures value { result ≡ self.now.enables }
        ensures lawful { IsLawful self.now }
    {
        self.enables
    }

    /// The request's data packet, lane 0 first.
    pub fn lanes(&self) -> [u8; 16]
        ensures { result ≡ self.now.lanes }
    {
        self.lanes
    }

    /// Whether each byte of the operand is in the region.
    pub fn fits(&self, region: &Region) -> bool
        ensures { result ≡ lies_in self.now.addr self.now.len region.now }
    {
        region.has(self.addr, self.len)
    }

    /// The number of the operand's granule in the region, from 0.
    pub fn granule(&self, region: &Region) -> usize
        requires { IsTrue (lies_in self.now.addr self.now.len region.now) }
        ensures value { result ≡ granule_of self.now.addr region.now }
        ensures within { result < region.now.granules }
    {
        ((self.addr - region.base()) / 8) as usize
    }
}
