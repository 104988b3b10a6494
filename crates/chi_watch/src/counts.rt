//! How much was told to a watch.

ghost use Rattle.std.specs.Prelude.{◌≡◌, ◌+◌, ◌-◌, ◌^◌, if◌then◌else◌, ℕ, List, length, min, is_some, count_by};
ghost use Rattle.chi_events.specs.declared.event.Event.{Event};
ghost use Rattle.chi_watch.specs.Counts.{AreCounted, unjudged};
ghost use Rattle.chi_watch.specs.Watches.{HasTaken};

use crate::kept::KeptGranule;
use crate::watch::Watch;
use std::collections::BTreeMap;

/// How much was told to a watch: how many operations have ended (2^64 - 1 stands for that many and more), how many requests are
/// outstanding, and of how many granules something was told.
#[derive(Clone, Copy, Debug, PartialEq, Eq)]
pub struct Counts {
    pub ended: u64,
    pub outstanding: usize,
    pub granules: usize,
}

/// So many, and one more where it is not judged.
fn with_unjudged(count: u64, is_unjudged: bool) -> u64
    ensures { result ≡ min (count + (if is_unjudged then 1 else 0)) (2 ^ 64 - 1) }
{
    if is_unjudged {
        count.saturating_add(1)
    } else {
        count
    }
}

/// How many of the granules are not judged to the end.
fn count_unjudged(granules: &BTreeMap<u64, KeptGranule>) -> u64
    ensures { result ≡ min (count_by (λ e. is_some e.1.unknown_since) granules.now.entries) (2 ^ 64 - 1) }
{
    let mut count = 0;
    for (_, kept) in granules {
        count = with_unjudged(count, kept.unknown_since().is_some());
    }
    count
}

impl Watch {
    /// How much was told so far.
    ///
    /// ```
    /// let outstanding = watch.counts().outstanding;
    /// ```
    pub fn counts(&self) -> Counts
        ensures counted { (events : List Event) → HasTaken events self.now → AreCounted events result }
        ensures granules { result.granules ≡ length self.now.granules }
    {
        Counts {
            ended: self.ended,
            outstanding: self.outstanding.count(),
            granules: self.granules.len(),
        }
    }

    /// How many granules are not judged to the end: those to which something that is not told may have written. 2^64 - 1 stands for
    /// that many and more.
    ///
    /// ```
    /// let count = watch.unjudged();
    /// ```
    pub fn unjudged(&self) -> u64
        ensures { result ≡ unjudged self.now }
    {
        count_unjudged(&self.granules)
    }
}
