//! Why an event cannot be taken.

ghost use Rattle.std.specs.Prelude.{◌≡◌};
ghost use Rattle.chi_watch.specs.Faults.{as_watch_fault};

use chi_events::EventFault;
use std::alloc::AllocError;
use thiserror::Error;

/// Why an event cannot be taken. After a fault nothing more is said of the events.
///
/// - `Event`: it cannot come next.
/// - `WordLate`: the word of a granule of which something was told before, and nothing that is not told may have written to it since; or
///   whose word at the end was told.
/// - `WordEarly`: the word of a granule once more while a request of it is outstanding, or no later than one ended.
/// - `FinalTwice`: a second word at the end.
/// - `FinalEarly`: the word of a granule of which a request is outstanding.
/// - `AfterFinal`: a request of a granule whose word at the end was told.
/// - `TooLong`: more than 4,096 bytes are unknown, or none, or some past 2^52.
///
/// ```
/// let fault = WatchFault::FinalTwice; // tells a second word at the end
/// ```
#[derive(Clone, Copy, Debug, PartialEq, Eq, Error)]
pub enum WatchFault {
    #[error(transparent)]
    Event(EventFault),
    #[error("tells a word after its granule was used")]
    WordLate,
    #[error("tells a word once more while a request is outstanding or no later than one ended")]
    WordEarly,
    #[error("tells a second word at the end")]
    FinalTwice,
    #[error("tells a word at the end while a request is outstanding")]
    FinalEarly,
    #[error("is a request after its granule's word at the end")]
    AfterFinal,
    #[error("has no length from 1 to 4096 below 2^52")]
    TooLong,
    #[error("no memory")]
    Memory,
}

impl From<EventFault> for WatchFault {
    ghost from_gives = { λ fault result. result ≡ as_watch_fault fault };

    fn from(fault: EventFault) -> WatchFault {
        match fault {
            EventFault::Memory => WatchFault::Memory,
            fault => WatchFault::Event(fault),
        }
    }
}

impl From<AllocError> for WatchFault {
    ghost use Rattle.chi_watch.specs.declared.fault.WatchFault.{WatchFault};

    ghost from_gives = { λ fault result. result ≡ WatchFault.Memory };

    fn from(_fault: AllocError) -> WatchFault {
        WatchFault::Memory
    }
}
