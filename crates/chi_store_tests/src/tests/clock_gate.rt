//! When the operations of a race took effect, as far as the pauses of their gates tell.

use chi_fields::{Refusal, Region, decode};
use chi_history::{Gate, Line};
use chi_trace::Operation;
use std::sync::atomic::{AtomicU64, Ordering};
use std::test::Fail;

/// How many operations a worker has at most.
const MOST: usize = 4;

/// The time of each operation's first pause, and of its last. The clock is a count of all pauses.
#[derive(Drop)]
pub(crate) struct Pauses {
    first: [AtomicU64; MOST],
    last: [AtomicU64; MOST],
}

impl Pauses {
    pub(crate) fn new() -> Pauses {
        Pauses {
            first: [
                AtomicU64::new(0),
                AtomicU64::new(0),
                AtomicU64::new(0),
                AtomicU64::new(0),
            ],
            last: [
                AtomicU64::new(0),
                AtomicU64::new(0),
                AtomicU64::new(0),
                AtomicU64::new(0),
            ],
        }
    }

    /// The gate of a worker that has done nothing yet.
    pub(crate) fn gate<'a>(&'a self, clock: &'a AtomicU64) -> ClockGate<'a> {
        ClockGate {
            clock,
            pauses: self,
            begun: 0,
        }
    }

    // The time of an operation's last pause: it took effect after it.
    fn start(&self, op: usize) -> u64 {
        match self.last.get(op) {
            Some(last) => last.load(Ordering::SeqCst),
            None => 0,
        }
    }

    // The time of the next operation's first pause, or of the race's end: an operation took effect before it.
    fn end(&self, op: usize, race_end: u64) -> u64 {
        match self.first.get(op.saturating_add(1)) {
            Some(first) => first.load(Ordering::SeqCst),
            None => race_end,
        }
    }
}

/// A gate that notes when it is paused.
#[derive(Drop)]
pub(crate) struct ClockGate<'a> {
    clock: &'a AtomicU64,
    pauses: &'a Pauses,
    begun: usize,
}

impl Gate for ClockGate<'_> {
    fn pause(&mut self, try_no: u8) {
        let now = self.clock.fetch_add(1, Ordering::SeqCst);
        if try_no == 1 {
            if let Some(first) = self.pauses.first.get(self.begun) {
                first.store(now, Ordering::SeqCst);
            }
            self.begun = self.begun.saturating_add(1);
        }
        if let Some(last) = self.pauses.last.get(self.begun.saturating_sub(1)) {
            last.store(now, Ordering::SeqCst);
        }
    }
}

// What a line reports of an operation that was completed between two times.
fn observed(
    region: &Region,
    line: &Line,
    start: u64,
    end: u64,
) -> Result<Option<Operation>, Refusal> {
    match line {
        Line::Completed(request, reply) => {
            let access = decode(request, region)?;
            Ok(Some(Operation {
                number: 0,
                src: u16::from(request.src),
                txn: u16::from(request.txn),
                access,
                start,
                end,
                reply: Some(*reply),
            }))
        }
        _ => Ok(None),
    }
}

/// The operations of a worker's lines, with their times.
pub(crate) fn observe(
    region: &Region,
    lines: &[Line],
    pauses: &Pauses,
    race_end: u64,
    ops: &mut Vec<Operation>,
) -> Result<(), Fail> {
    let mut op = 0usize;
    for line in lines {
        if let Some(seen) = observed(region, line, pauses.start(op), pauses.end(op, race_end))? {
            ops.push(seen)?;
            op = op.saturating_add(1);
        }
    }
    Ok(())
}

/// The operations of 0, after those of all workers.
pub(crate) fn observe_after(
    region: &Region,
    lines: &[Line],
    race_end: u64,
    ops: &mut Vec<Operation>,
) -> Result<(), Fail> {
    for line in lines {
        if let Some(seen) = observed(region, line, race_end.saturating_add(1), u64::MAX)? {
            ops.push(seen)?;
        }
    }
    Ok(())
}
