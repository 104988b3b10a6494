//! How much of the time and the memory of the machine was used.

use crate::options::CheckOptions;
use std::time::{Duration, Instant};

/// The time, and the most bytes of memory that the program had at one time by then, where they can be told.
#[derive(Clone, Copy)]
pub struct Used {
    pub time: Option<Instant>,
    pub bytes: Option<u64>,
}

/// What tells how much was used.
pub trait Meter {
    /// How much was used so far.
    fn used(&self) -> Used;
}

// How many milliseconds lie between two times.
fn milliseconds(from: Instant, to: Instant) -> u128 {
    let passed: Duration = to.duration_since(from);
    passed.as_millis()
}

// Whether a search of twice the time of the last one may end in so many seconds from the first one on.
fn is_in_time(seconds: u64, first: Used, before: Used, now: Used) -> bool {
    let (Some(first), Some(before), Some(now)) = (first.time, before.time, now.time) else {
        return false;
    };
    let next = milliseconds(before, now).saturating_mul(2);
    milliseconds(first, now).saturating_add(next) <= u128::from(seconds).saturating_mul(1000)
}

// Whether a search of twice the memory may do with so many bytes, with those that were there before the first one.
fn is_in_memory(memory: u64, first: Used, now: Used) -> bool {
    let (Some(first), Some(now)) = (first.bytes, now.bytes) else {
        return false;
    };
    let next = now.saturating_sub(first).saturating_mul(2);
    now.saturating_add(next) <= memory
}

/// Whether a search of twice as many states as the last one may begin. Where the time or the memory cannot be told and is limited,
/// none may.
pub(crate) fn may_double(options: &CheckOptions<'_>, first: Used, before: Used, now: Used) -> bool {
    let is_in_time = match options.seconds {
        Some(seconds) => is_in_time(seconds, first, before, now),
        None => true,
    };
    let is_in_memory = match options.memory {
        Some(memory) => is_in_memory(memory, first, now),
        None => true,
    };
    is_in_time && is_in_memory
}
