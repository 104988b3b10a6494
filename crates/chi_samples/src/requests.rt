//! Requests by their fields.

ghost use Rattle.std.specs.Prelude.{◌≡◌};

use chi_fields::Request;

/// A request of requester 0 with little-endian data.
///
/// ```
/// let add = plain_request(0x30, 3, 0x1000, 0x00ff, first_lane(1));
/// ```
pub fn plain_request(opcode: u8, size: u8, addr: u64, be: u16, lanes: [u8; 16]) -> Request
    ensures { result.src ≡ 0 }
{
    Request {
        src: 0,
        txn: 0,
        opcode,
        size,
        addr,
        endian: false,
        be,
        lanes,
    }
}

/// A data packet with this byte in its first lane, and 0 in the others.
///
/// ```
/// let reply = Reply::CompData(first_lane(0x3c));
/// ```
pub fn first_lane(byte: u8) -> [u8; 16] {
    let mut lanes = [0; 16];
    lanes[0] = byte;
    lanes
}
