//! When the requests of a worker were begun and answered.

use crate::requests::EACH;
use chi_history::Gate;
use std::alloc::{AllocError, Global};
use std::hint;
use std::sync::atomic::{AtomicU64, Ordering};

// How many workers race.
const WORKERS: u64 = 4;

// How often a worker looks whether the others have come, before it begins without them.
const LOOKS: u32 = 30_000;

/// Counts of the clock that the workers share.
#[derive(Drop)]
pub(crate) struct Times {
    begun: Vec<AtomicU64>,
    answered: Vec<AtomicU64>,
}

fn zeros(alloc: Global) -> Result<Vec<AtomicU64>, AllocError> {
    let mut times = Vec::new(alloc);
    for _ in 0..EACH {
        times.push(AtomicU64::new(0))?;
    }
    Ok(times)
}

impl Times {
    /// Room for the times of the requests that a worker has in a round.
    pub(crate) fn new(alloc: Global) -> Result<Times, AllocError> {
        Ok(Times {
            begun: zeros(alloc)?,
            answered: zeros(alloc)?,
        })
    }

    /// The gate of a worker that has begun no request yet.
    pub(crate) fn gate<'a>(&'a self, clock: &'a AtomicU64, come: &'a AtomicU64) -> TimedGate<'a> {
        TimedGate {
            clock,
            come,
            times: self,
            place: 0,
        }
    }

    /// When the request at this place was begun: before the first try of it.
    pub(crate) fn begun(&self, place: usize) -> u64 {
        time_at(&self.begun, place)
    }

    /// When the request at this place had been answered: before the next one was begun, or before the worker ended.
    pub(crate) fn answered(&self, place: usize) -> u64 {
        time_at(&self.answered, place)
    }
}

fn time_at(times: &[AtomicU64], place: usize) -> u64 {
    match times.get(place) {
        Some(time) => time.load(Ordering::SeqCst),
        None => 0,
    }
}

/// A gate that notes when it is paused for the first time of each request, and when its worker lets it go. The first pause
/// of all lets the other workers come, so that they begin at the same time.
pub(crate) struct TimedGate<'a> {
    clock: &'a AtomicU64,
    come: &'a AtomicU64,
    times: &'a Times,
    place: usize,
}

impl TimedGate<'_> {
    // Waits until all workers have come, but not for long.
    fn let_others_come(&self) {
        self.come.fetch_add(1, Ordering::SeqCst);
        for _ in 0..LOOKS {
            if self.come.load(Ordering::SeqCst) >= WORKERS {
                return;
            }
            hint::spin_loop();
        }
    }

    // Notes that the request before this one had been answered.
    fn note_answered(&self) {
        let answered = self.times.answered.get(self.place.saturating_sub(1));
        if let Some(time) = answered {
            time.store(self.clock.fetch_add(1, Ordering::SeqCst), Ordering::SeqCst);
        }
    }

    // Notes that this request is begun now.
    fn note_begun(&self) {
        if let Some(time) = self.times.begun.get(self.place) {
            time.store(self.clock.fetch_add(1, Ordering::SeqCst), Ordering::SeqCst);
        }
    }
}

impl Drop for TimedGate<'_> {
    fn drop(self) {
        self.note_answered();
        let TimedGate {
            clock: _,
            come: _,
            times: _,
            place: _,
        } = self;
    }
}

impl Gate for TimedGate<'_> {
    fn pause(&mut self, try_no: u8) {
        if try_no != 1 {
            return;
        }
        if self.place == 0 {
            self.let_others_come();
        } else {
            self.note_answered();
        }
        self.note_begun();
        self.place = self.place.saturating_add(1);
    }
}
