//! Events of a home, and a watch that takes them.

use crate::tests::comparison::assert_same;
use chi_events::{Completion, Event, EventKind, Packet, Requested, WordTold};
use chi_lanes::Reply;
use chi_search::NoProgress;
use chi_trace::{Operation, RequestFields};
use chi_watch::{Ending, Watch, WatchFault};
use std::alloc::Global;
use std::process::Abort;
use std::test::Fail;

// The granule at address 4096 has the number 512. Its eight bytes are lanes 0 to 7 of their packet.
pub(crate) const GRANULE: u64 = 512;

/// More states than any test needs.
pub(crate) const BUDGET: u64 = 1_000_000;

/// What is told of the request of a number, of eight bytes at 4096 if it is not told otherwise:
///
/// - `Write`: a WriteNoSnpPtl of a value; `WriteAlone` without its data, and `Data` are these.
/// - `Read`: a ReadNoSnp; `ReadNext` one at 4104, in the next granule.
/// - `Add`, `StoreAdd`: an AtomicLoad ADD and an AtomicStore ADD of a value.
/// - `Done`: the completion of a write or an AtomicStore.
/// - `Answer`: the completion of a read or an AtomicLoad, which found a value.
/// - `Failed`: the completion that does not say what was done.
/// - `Dropped`: it took no effect.
///
/// And what is told of memory:
///
/// - `Word`, `Final`: the word of the granule at 4096, at its opening and at the end; `FinalNext` that of the next at the end.
/// - `Unknown`: so many bytes from an address on may have been written.
/// - `End`: nothing more is told.
///
/// All are plain data: a table of these costs a proof less than calls that make them.
#[derive(Clone, Copy)]
pub(crate) enum Told {
    Write(u64, u8),
    WriteAlone(u64),
    Data(u64, u8),
    Read(u64),
    ReadNext(u64),
    Add(u64, u8),
    StoreAdd(u64, u8),
    Done(u64),
    Answer(u64, u16),
    Failed(u64),
    Dropped(u64),
    Word(u64),
    Final(u64),
    FinalNext(u64),
    Unknown(u64, u64),
    End,
}

/// Lanes of which byte 0 and byte 1 have a number.
pub(crate) fn lanes(value: u16) -> [u8; 16] {
    u128::from(value).to_le_bytes()
}

// A request with its data whose number is its time.
fn request(time: u64, id: u64, opcode: u8, addr: u64, value: u8) -> EventKind {
    EventKind::Request(Requested {
        id,
        fields: RequestFields {
            number: time,
            src: 1,
            txn: 0,
            opcode,
            size: 3,
            addr,
            endian: false,
            be: 0xff,
            lanes: lanes(u16::from(value)),
        },
        has_data: true,
    })
}

// A request that has no data, or not yet.
fn request_alone(time: u64, id: u64, opcode: u8, addr: u64) -> EventKind {
    EventKind::Request(Requested {
        id,
        fields: RequestFields {
            number: time,
            src: 1,
            txn: 0,
            opcode,
            size: 3,
            addr,
            endian: false,
            be: 0,
            lanes: [0; 16],
        },
        has_data: false,
    })
}

fn reply(id: u64, reply: Option<Reply>) -> EventKind {
    EventKind::Reply(Completion { id, reply })
}

fn word_of(granule: u64, word: u64) -> WordTold {
    WordTold {
        number: 1,
        granule,
        word,
    }
}

/// What is told at a time.
pub(crate) fn event(time: u64, told: Told) -> Event {
    let kind = match told {
        Told::Write(id, value) => request(time, id, 0x1c, 4096, value),
        Told::WriteAlone(id) => request_alone(time, id, 0x1c, 4096),
        Told::Data(id, value) => EventKind::Data(Packet {
            id,
            be: 0xff,
            lanes: lanes(u16::from(value)),
        }),
        Told::Read(id) => request_alone(time, id, 0x04, 4096),
        Told::ReadNext(id) => request_alone(time, id, 0x04, 4104),
        Told::Add(id, value) => request(time, id, 0x30, 4096, value),
        Told::StoreAdd(id, value) => request(time, id, 0x28, 4096, value),
        Told::Done(id) => reply(id, Some(Reply::Comp)),
        Told::Answer(id, value) => reply(id, Some(Reply::CompData(lanes(value)))),
        Told::Failed(id) => reply(id, None),
        Told::Dropped(id) => EventKind::Dropped { id },
        Told::Word(word) => EventKind::Word(word_of(GRANULE, word)),
        Told::Final(word) => EventKind::Final(word_of(GRANULE, word)),
        Told::FinalNext(word) => EventKind::Final(word_of(GRANULE + 1, word)),
        Told::Unknown(addr, length) => EventKind::Unknown { addr, length },
        Told::End => EventKind::End,
    };
    Event { time, kind }
}

/// What the watch finds by an event.
pub(crate) fn take(
    alloc: Global,
    watch: &mut Watch,
    time: u64,
    told: Told,
) -> Result<Option<u64>, WatchFault> {
    watch.take(alloc, &event(time, told), BUDGET, &mut NoProgress)
}

/// What it records of an event, without a judgement.
pub(crate) fn record(
    alloc: Global,
    watch: &mut Watch,
    time: u64,
    told: Told,
) -> Result<Option<Operation>, WatchFault> {
    watch.record(alloc, &event(time, told))
}

/// What it finds by the last of these events, the first of which has time 1, and each other the time after that of the one
/// before it; by the others it finds nothing.
pub(crate) fn take_all(
    alloc: Global,
    watch: &mut Watch,
    events: &[Told],
) -> Result<Option<u64>, WatchFault> {
    let mut found = None;
    for (told, time) in events.iter().zip(1..u64::MAX) {
        if found.is_some() {
            return Ok(None);
        }
        found = take(alloc, watch, time, *told)?;
    }
    Ok(found)
}

// How many operations are shown: as usual, and none, where settled granules are kept as their words.
const SHOWN: [usize; 2] = [16, 0];

/// Compares what is found in a case by the last of these events, however many operations are shown; by the others nothing is found.
pub(crate) fn assert_found<R: AllocGlobal + Abort>(
    rt: &R,
    case: &str,
    events: &[Told],
    wanted: Option<u64>,
) -> Result<(), Fail> {
    for shown in SHOWN {
        let mut watch = Watch::new(rt.alloc(), shown)?;
        let found = take_all(rt.alloc(), &mut watch, events)?;
        assert_same(rt, (case, shown, found), (case, shown, wanted));
    }
    Ok(())
}

/// The granule, where it is found.
pub(crate) fn granule_if(is_found: bool) -> Option<u64> {
    if is_found { Some(GRANULE) } else { None }
}

/// A name, events, and whether the granule is found by the last of them.
pub(crate) type FoundCase = (&'static str, &'static [Told], bool);

pub(crate) fn assert_each_found<R: AllocGlobal + Abort>(
    rt: &R,
    cases: &[FoundCase],
) -> Result<(), Fail> {
    for (case, events, is_found) in cases {
        assert_found(rt, case, events, granule_if(*is_found))?;
    }
    Ok(())
}

/// What is said within so many states after these events, by none of which anything is found, unless that may be.
pub(crate) fn ending_of(
    alloc: Global,
    events: &[Told],
    budget: u64,
    may_find: bool,
) -> Result<Ending, Fail> {
    let mut watch = Watch::new(alloc, 16)?;
    let found = take_all(alloc, &mut watch, events)?;
    if found.is_some() && !may_find {
        return Err(Fail::new("a granule was found by an event"));
    }
    Ok(watch.ending(alloc, budget, &mut NoProgress)?)
}
