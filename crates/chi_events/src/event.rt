//! What a monitor tells of a home while a simulation runs.

use chi_fields::Refusal;
use chi_lanes::Reply;
use chi_trace::RequestFields;

/// A request that a home has taken. `id` is a number that no other outstanding request has. Its data have come with it, or are
/// told by a later event; until then its byte enables and lanes are 0.
#[derive(Clone, Copy, Debug)]
pub struct Requested {
    pub id: u64,
    pub fields: RequestFields,
    pub has_data: bool,
}

/// The data of a request: the byte enables and the lanes of the aligned 16 bytes that contain its address.
///
/// Source: Arm IHI 0050 Issue B, data packet.
#[derive(Clone, Copy, Debug)]
pub struct Packet {
    pub id: u64,
    pub be: u16,
    pub lanes: [u8; 16],
}

/// The completion of a request. `reply` is `None` where it does not say what was done, as that of an error response.
#[derive(Clone, Copy, Debug)]
pub struct Completion {
    pub id: u64,
    pub reply: Option<Reply>,
}

/// The word of a granule, as an event tells it. `granule` is the number of the granule: its address divided by 8. `number` says which
/// part of the input told it, counted as the input counts.
#[derive(Clone, Copy, Debug)]
pub struct WordTold {
    pub number: u64,
    pub granule: u64,
    pub word: u64,
}

/// What an event tells.
///
/// - `Request`: a request was taken.
/// - `Data`: its data have come.
/// - `Reply`: its completion has left.
/// - `Dropped`: the request with this number took no effect. It was retried, or its data were cancelled.
/// - `Refused`: it took no effect, since the home refused it, for this reason where one is told.
/// - `Word`: the word of a granule before its first request, or once more after something that is not told may have written to it.
/// - `Final`: the word of a granule after its last request.
/// - `Unknown`: something that these events do not tell may have written the `length` bytes from `addr` on.
/// - `End`: the monitor tells nothing more. It changes nothing of what is told.
#[derive(Clone, Copy, Debug)]
pub enum EventKind {
    Request(Requested),
    Data(Packet),
    Reply(Completion),
    Dropped { id: u64 },
    Refused { id: u64, reason: Option<Refusal> },
    Word(WordTold),
    Final(WordTold),
    Unknown { addr: u64, length: u64 },
    End,
}

/// An event, and when it was seen: a count of one clock, of which only the order is looked at. A monitor tells events in the
/// order of their times; those of one time may be told in any order.
#[derive(Clone, Copy, Debug)]
pub struct Event {
    pub time: u64,
    pub kind: EventKind,
}
