//! Whether the granules that are watched take an event.

ghost use Rattle.std.specs.Prelude.{◌≡◌, ◌+◌, ◌^◌, ◌==◌, ◌&&◌, nat_le, nat_lt, None, Some, IfErr, IfOk};
ghost use Rattle.std.specs.List.{list_any};
ghost use Rattle.chi_watch.specs.Changes.{HasLength};
ghost use Rattle.chi_events.specs.Granules.{granule_of_request};
ghost use Rattle.chi_watch.specs.Watches.{granule as granule_of, granule_fault, has_final_word, word_fault};

use crate::fault::WatchFault;
use crate::watch::Watch;
use chi_events::{Event, EventKind};
use chi_fields::ADDRESSES;

/// Whether this is a length from 1 to 4,096 of bytes below 2^52.
fn has_length(addr: u64, length: u64) -> bool
    ensures { result ≡ (nat_lt 0 length && nat_le length 4096 && nat_le (addr + length) (2 ^ 52)) }
{
    0 < length && length <= 4096 && addr <= ADDRESSES - length
}

impl Watch {
    /// Whether the granule's word at the end was told.
    fn has_final_word(&self, granule: u64) -> bool
        ensures { result ≡ has_final_word (granule_of self.now granule) }
    {
        match self.granules.get(&granule) {
            Some(kept) => kept.final_word().is_some(),
            None => false,
        }
    }

    /// Whether the granules take a word that is told at this time, not as the one at the end, or why they do not.
    fn admits_word(&self, time: u64, granule: u64) -> Result<(), WatchFault>
        ensures fits { IfOk result (λ _. word_fault time (granule_of self.now granule) (list_any (λ p. granule_of_request p == granule) self.now.outstanding.requests) ≡ None) }
        ensures fault { IfErr result (λ fault. word_fault time (granule_of self.now granule) (list_any (λ p. granule_of_request p == granule) self.now.outstanding.requests) ≡ Some fault) }
    {
        let Some(kept) = self.granules.get(&granule) else {
            return Ok(());
        };
        if kept.final_word().is_some() || kept.unknown_since().is_none() {
            return Err(WatchFault::WordLate);
        }
        if self.is_open(granule) || time <= kept.last() {
            return Err(WatchFault::WordEarly);
        }
        Ok(())
    }

    /// Whether the granules take an event, or why they do not.
    pub(crate) fn admits(&self, event: &Event) -> Result<(), WatchFault>
        ensures fits { IfOk result (λ _. granule_fault self.now event.now.time event.now.kind ≡ None) }
        ensures fault { IfErr result (λ fault. granule_fault self.now event.now.time event.now.kind ≡ Some fault) }
        ensures length { IfOk result (λ _. HasLength event.now.kind) }
    {
        match &event.kind {
            EventKind::Request(request) => {
                if self.has_final_word(request.fields.addr / 8) {
                    return Err(WatchFault::AfterFinal);
                }
                Ok(())
            }
            EventKind::Word(told) => self.admits_word(event.time, told.granule),
            EventKind::Final(told) => {
                if self.has_final_word(told.granule) {
                    return Err(WatchFault::FinalTwice);
                }
                if self.is_open(told.granule) {
                    return Err(WatchFault::FinalEarly);
                }
                Ok(())
            }
            EventKind::Unknown { addr, length } => {
                if !has_length(*addr, *length) {
                    return Err(WatchFault::TooLong);
                }
                Ok(())
            }
            _ => Ok(()),
        }
    }
}
