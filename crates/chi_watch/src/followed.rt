//! One granule that is watched.

ghost use Rattle.std.specs.Prelude.{◌≡◌, IfOk, find, nat_lt};
ghost use Rattle.chi_watch.specs.Changes.{IsUntouched};
ghost use Rattle.chi_watch.specs.Watches.{unknown_by};

use chi_judge::Judge;
use std::alloc::{AllocError, Global};
use std::marker::Model;

/// A time in which something that is not told may have written to a granule: up to the time at which its word was told again.
#[derive(Clone, Copy)]
pub struct Gap {
    pub(crate) since: u64,
    pub(crate) until: u64,
}

/// A granule that is watched: the judge of its operations that have ended; the word after its last request, where it was told; from
/// which time on something that is not told may have written to it, where it may, and the times in which it may have before; and when
/// the last of its operations ended or its word was told.
#[derive(Drop)]
pub struct Followed {
    pub(crate) judge: Judge,
    pub(crate) final_word: Option<u64>,
    pub(crate) unknown_since: Option<u64>,
    pub(crate) gaps: Vec<Gap>,
    pub(crate) last: u64,
}

impl Model for Followed {
    ghost use Rattle.chi_watch.specs.Followed.{FollowedValue};

    ghost Value = { FollowedValue };

    ghost view = { λ f. record { judge = f.judge; final_word = f.final_word; unknown_since = f.unknown_since; gaps = f.gaps.items; last = f.last } };
}

/// A granule before its first request, of which so many operations are shown at most before one that is blamed.
pub(crate) fn untouched(alloc: Global, word: u64, shown: usize) -> Result<Followed, AllocError>
    ensures untouched { IfOk result (IsUntouched shown word) }
{
    Ok(Followed {
        judge: Judge::new(alloc, word, shown)?,
        final_word: None,
        unknown_since: None,
        gaps: Vec::new(alloc),
        last: 0,
    })
}

/// The first gap that ends after a time.
fn gap_after(gaps: &[Gap], time: u64) -> Option<Gap>
    ensures { result ≡ find (λ gap. nat_lt time gap.until) gaps.now }
{
    gaps.iter().copied().find(|gap| time < gap.until)
}

/// From which time on something that is not told may have written to the granule, for an operation that starts at a time.
pub(crate) fn unknown_by(followed: &Followed, time: u64) -> Option<u64>
    ensures { result ≡ unknown_by followed.now.gaps followed.now.unknown_since time }
{
    match gap_after(&followed.gaps, time) {
        Some(gap) => Some(gap.since),
        None => followed.unknown_since,
    }
}
