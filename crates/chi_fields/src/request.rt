//! A request as its fields, handed in together with its data packet.

/// A request and its data packet.
///
/// - `src` is the requester's number, and `txn` its number for the transaction, by which nothing is matched.
/// - `size` stands for `2^size` bytes; for `AtomicCompare` both values together.
/// - `addr` is the address of the operand's first byte.
/// - `endian` is true for big-endian data.
/// - `be` has one byte enable for each lane: bit `i` is lane `i`.
/// - `lanes` is the data packet, lane 0 first. The byte of address `x` stands in lane `x mod 16`.
///
/// Source: Arm IHI 0050 Issue B, request fields and data packet; that both come together is of the profile.
#[derive(Clone, Copy, Debug, PartialEq, Eq)]
pub struct Request {
    pub src: u8,
    pub txn: u8,
    pub opcode: u8,
    pub size: u8,
    pub addr: u64,
    pub endian: bool,
    pub be: u16,
    pub lanes: [u8; 16],
}
