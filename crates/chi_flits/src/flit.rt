//! Flits at a home's port, as a monitor prints them.

/// A request to the home. `number` says which part of the input told it, counted as the input counts. `endian` is looked at of an
/// atomic alone, and `excl` of reads and writes.
///
/// Source: Arm IHI 0050 Issue B, request fields.
#[derive(Clone, Copy, Debug)]
pub struct RequestFlit {
    pub number: u64,
    pub src: u16,
    pub txn: u16,
    pub opcode: u8,
    pub size: u8,
    pub addr: u64,
    pub endian: bool,
    pub excl: bool,
}

/// A response of the home without data, to a requester's transaction. `dbid` is looked at where its opcode gives one.
///
/// Source: Arm IHI 0050 Issue B, response fields.
#[derive(Clone, Copy, Debug)]
pub struct ResponseFlit {
    pub tgt: u16,
    pub txn: u16,
    pub opcode: u8,
    pub resp_err: u8,
    pub dbid: u16,
}

/// Sixteen bytes of data at an address that is a multiple of 16, with their byte enables; data to a requester have none. Bit i of
/// `unknown_be` says that byte enable i is not known, and bit i of `unknown` the same of lane i.
#[derive(Clone, Copy, Debug)]
pub struct Chunk {
    pub be: u16,
    pub unknown_be: u16,
    pub lanes: [u8; 16],
    pub unknown: u16,
}

/// Data of a requester's transaction: to it, by its TxnID, or from it, by the DBID that it was given. `chunks` are the 16 bytes at
/// each quarter of the line of 64 bytes, where the flit has them: one, two or all of them, by the width of the bus.
///
/// Source: Arm IHI 0050 Issue B, data packet.
#[derive(Clone, Copy, Debug)]
pub struct DataFlit {
    pub node: u16,
    pub txn: u16,
    pub opcode: u8,
    pub resp_err: u8,
    pub chunks: [Option<Chunk>; 4],
}

/// What passes at the port.
///
/// - `Request`: a request to the home.
/// - `Response`: a response of the home without data.
/// - `ReadData`: data from the home.
/// - `WriteData`: data to the home.
#[derive(Clone, Copy, Debug)]
pub enum FlitKind {
    Request(RequestFlit),
    Response(ResponseFlit),
    ReadData(DataFlit),
    WriteData(DataFlit),
}

/// A flit, and when it was seen: a count of one clock.
#[derive(Clone, Copy, Debug)]
pub struct Flit {
    pub time: u64,
    pub kind: FlitKind,
}
