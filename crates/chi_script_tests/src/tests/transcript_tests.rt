//! Tests of the transcript's text, and of writers that fail.

use crate::tests::comparison::{assert_same, assert_text};
use crate::tests::sample_scripts::FETCH_ADD;
use chi_fields::{Refusal, Region, Request};
use chi_history::Line;
use chi_lanes::Reply;
use chi_script::{WriteFault, write_lines, write_transcript};
use std::io;
use std::io::Write;
use std::process::Abort;

const ZEROS: [u8; 16] = [0; 16];

const FETCH_ADD_TEXT: &str =
    "0 1 30 AtomicLoad.ADD 3 0000000000001000 data 00000000000000000000000000000000\nm 0000000000001000 0100000000000000\nm 0000000000001008 0000000000000000\nm 0000000000001010 0000000000000000\nm 0000000000001018 0000000000000000\nm 0000000000001020 0000000000000000\nm 0000000000001028 0000000000000000\nm 0000000000001030 0000000000000000\nm 0000000000001038 0000000000000000\n";

// A writer that takes at most `each` bytes a call and `room` in all. Then it takes none, or fails.
#[derive(Drop)]
struct Device {
    taken: Vec<u8>,
    room: usize,
    each: usize,
    sticks: bool,
    calls: usize,
}

impl Write for Device {
    fn write(&mut self, buf: &[u8]) -> io::Result<usize> {
        self.calls = self.calls.saturating_add(1);
        let n = buf.len().min(self.room).min(self.each);
        if n == 0 && !self.sticks {
            return Err(io::Error::from(io::ErrorKind::Interrupted));
        }
        self.taken.extend_from_slice(&buf[..n])?;
        self.room -= n;
        Ok(n)
    }

    fn flush(&mut self) -> io::Result<()> {
        Ok(())
    }
}

// Writes the transcript of the fetch and add to a new device, and compares what it then has taken.
fn assert_taken<R: AllocGlobal + Abort>(
    rt: &R,
    (room, each, sticks): (usize, usize, bool),
    wanted: Result<(), WriteFault>,
    taken: &[u8],
) {
    let mut to = Device {
        taken: Vec::new(rt.alloc()),
        room,
        each,
        sticks,
        calls: 0,
    };
    let lines = [Line::Completed(FETCH_ADD, Reply::CompData(ZEROS))];
    match Region::new(0x1000, 8) {
        Ok(region) if region.granules() == 8 => {
            let written = write_transcript(&mut to, &lines, &region, &[1, 0, 0, 0, 0, 0, 0, 0]);
            let case = (room, each, sticks);
            let found = (written, to.taken.as_slice());
            assert_same(rt, (case, found), (case, (wanted, taken)));
        }
        _ => panic!(*rt; "the region has other granules"),
    }
}

// A writer that takes so many bytes is left with as much of the transcript, whether it fails then or takes none.
fn assert_cut<R: AllocGlobal + Abort>(rt: &R, room: usize, each: usize) {
    let left = FETCH_ADD_TEXT.as_bytes().get(..room).unwrap_or_default();
    assert_taken(rt, (room, each, false), Err(WriteFault::Failed), left);
    assert_taken(rt, (room, each, true), Err(WriteFault::Stuck), left);
}

#[test]
fn failing_devices(rt: HostRuntime) {
    assert_cut(&rt, 10, 10);
}

#[test]
fn hostile_devices(rt: HostRuntime) {
    for room in 0..FETCH_ADD_TEXT.len() {
        assert_cut(&rt, room, 7);
    }
}

#[test]
fn writes_of_one_byte(rt: HostRuntime) {
    assert_taken(&rt, (4096, 1, false), Ok(()), FETCH_ADD_TEXT.as_bytes());
}

/// Lines and their texts.
const LINES: [([Line; 2], &str); 2] = [
    // retried_and_completed
    (
        [
            Line::Retried(FETCH_ADD),
            Line::Completed(
                FETCH_ADD,
                Reply::CompData([2, 0, 0, 0, 0, 0, 0, 0, 0, 0, 0, 0, 0, 0, 0, 0]),
            ),
        ],
        "0 1 30 AtomicLoad.ADD 3 0000000000001000 retry\n0 1 30 AtomicLoad.ADD 3 0000000000001000 data 02000000000000000000000000000000\n",
    ),
    // refused_and_completed_without_data
    (
        [
            Line::Refused(
                Request {
                    src: 7,
                    txn: 5,
                    opcode: 0x38,
                    addr: 0x0ffc,
                    ..FETCH_ADD
                },
                Refusal::Misaligned,
            ),
            Line::Completed(
                Request {
                    src: 107,
                    txn: 255,
                    opcode: 0x2d,
                    ..FETCH_ADD
                },
                Reply::Comp,
            ),
        ],
        "7 5 38 AtomicSwap 3 0000000000000ffc refused Misaligned\n107 255 2d AtomicStore.SMIN 3 0000000000001000 comp\n",
    ),
];

#[test]
fn retried_refused_and_completed(rt: HostRuntime) {
    for (lines, wanted) in &LINES {
        let mut to: Vec<u8> = Vec::new(rt.alloc());
        let written = write_lines(&mut to, lines);
        let found = (written, to.as_slice());
        assert_same(&rt, found, (Ok(()), wanted.as_bytes()));
    }
}

#[test]
fn few_writes(rt: HostRuntime) {
    let lines = [Line::Completed(FETCH_ADD, Reply::CompData(ZEROS)); 512];
    let mut to = Device {
        taken: Vec::new(rt.alloc()),
        room: usize::MAX,
        each: usize::MAX,
        sticks: false,
        calls: 0,
    };
    let written = write_lines(&mut to, &lines);
    let found = (written, to.taken.len(), to.calls);
    assert_same(&rt, found, (Ok(()), 512 * 79, 3));
}

#[test]
fn write_fault_text(rt: HostRuntime) {
    assert_text(&rt, WriteFault::Failed, "output could not be written");
    assert_text(&rt, WriteFault::Stuck, "output could not be written");
}
