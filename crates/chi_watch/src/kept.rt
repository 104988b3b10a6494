//! What is kept of a granule that is watched: all that is followed of it, or its word alone, where it is settled.

ghost use Rattle.std.specs.Prelude.{◌≡◌, IfOk, IfSome};
ghost use Rattle.chi_watch.specs.Endings.{judged_word};
ghost use Rattle.chi_watch.specs.Kept.{followed_settled};
ghost use Rattle.chi_watch.specs.Watches.{unknown_by};

use crate::followed::{Followed, unknown_by};
use chi_judge::{Judge, Settled};
use std::alloc::{AllocError, Global};
use std::marker::Model;
use std::mem;

/// All that is followed of a granule; or what is left of one that is settled, before its word at the end is told, and after.
#[derive(Drop)]
pub enum Kept {
    Followed(Box<Followed>),
    Settled(Settled),
    Ended(Settled),
}

/// A granule that is watched. In clauses it is what is followed of it, however much is kept for that.
#[derive(Drop)]
pub struct KeptGranule {
    pub(crate) kept: Kept,
}

impl Model for KeptGranule {
    ghost use Rattle.chi_watch.specs.Followed.{FollowedValue};
    ghost use Rattle.chi_watch.specs.Kept.{followed_of};

    ghost Value = { FollowedValue };

    ghost view = { λ g. followed_of g.kept };
}

/// What takes the place of a granule while that is changed.
const CHANGED: Settled = Settled {
    word: 0,
    horizon: 0,
    latest: 0,
};

/// All that is followed of a settled granule, with its word at the end, where that was told.
fn followed(
    alloc: Global,
    settled: &Settled,
    final_word: Option<u64>,
) -> Result<Followed, AllocError>
    ensures { IfOk result (λ followed. followed ≡ followed_settled settled.now final_word) }
{
    Ok(Followed {
        judge: Judge::of_settled(alloc, settled)?,
        final_word,
        unknown_since: None,
        gaps: Vec::new(alloc),
        last: settled.latest,
    })
}

/// What is left of a granule, where it is settled and all that wrote to it is told.
fn settled(alloc: Global, followed: &Followed) -> Result<Option<Settled>, AllocError>
    ensures { IfOk result (λ found. IfSome found (λ settled. followed.now ≡ followed_settled settled followed.now.final_word)) }
{
    if followed.unknown_since.is_some() || !followed.gaps.is_empty() {
        return Ok(None);
    }
    match followed.judge.settled(alloc)? {
        Some(settled) if settled.latest == followed.last => Ok(Some(settled)),
        _ => Ok(None),
    }
}

impl KeptGranule {
    /// Keeps what is followed of a granule, in little room where it is settled.
    pub(crate) fn keep(alloc: Global, followed: Box<Followed>) -> Result<KeptGranule, AllocError>
        ensures { IfOk result (λ kept. kept ≡ followed.value) }
    {
        let Some(settled) = settled(alloc, &followed)? else {
            let kept = Kept::Followed(followed);
            return Ok(KeptGranule { kept });
        };
        let kept = match followed.final_word {
            None => Kept::Settled(settled),
            Some(word) if word == settled.word => Kept::Ended(settled),
            Some(_) => Kept::Followed(followed),
        };
        Ok(KeptGranule { kept })
    }

    /// All that is followed of the granule, which is to be kept again once it is changed.
    pub(crate) fn opened(&mut self, alloc: Global) -> Result<Box<Followed>, AllocError>
        ensures { IfOk result (λ followed. followed.value ≡ self.old) }
    {
        match mem::replace(&mut self.kept, Kept::Settled(CHANGED)) {
            Kept::Followed(opened) => Ok(opened),
            Kept::Settled(settled) => Ok(Box::new(alloc, followed(alloc, &settled, None)?)?),
            Kept::Ended(settled) => {
                let word = Some(settled.word);
                Ok(Box::new(alloc, followed(alloc, &settled, word)?)?)
            }
        }
    }

    /// The word after its last request, where it was told.
    pub(crate) fn final_word(&self) -> Option<u64>
        ensures { result ≡ self.now.final_word }
    {
        match &self.kept {
            Kept::Followed(followed) => followed.final_word,
            Kept::Settled(_) => None,
            Kept::Ended(settled) => Some(settled.word),
        }
    }

    /// From which time on something that is not told may have written to it.
    pub(crate) fn unknown_since(&self) -> Option<u64>
        ensures { result ≡ self.now.unknown_since }
    {
        match &self.kept {
            Kept::Followed(followed) => followed.unknown_since,
            Kept::Settled(_) | Kept::Ended(_) => None,
        }
    }

    /// The same for an operation that starts at a time.
    pub(crate) fn unknown_by(&self, time: u64) -> Option<u64>
        ensures { result ≡ unknown_by self.now.gaps self.now.unknown_since time }
    {
        match &self.kept {
            Kept::Followed(followed) => unknown_by(followed, time),
            Kept::Settled(_) | Kept::Ended(_) => None,
        }
    }

    /// The word at the end that is judged: that of a granule of which all that wrote to it is told.
    pub(crate) fn judged_word(&self) -> Option<u64>
        ensures { result ≡ judged_word self.now }
    {
        if self.unknown_since().is_none() {
            self.final_word()
        } else {
            None
        }
    }

    /// When the last of its operations ended or its word was told.
    pub(crate) fn last(&self) -> u64
        ensures { result ≡ self.now.last }
    {
        match &self.kept {
            Kept::Followed(followed) => followed.last,
            Kept::Settled(settled) | Kept::Ended(settled) => settled.latest,
        }
    }

    /// Whether what was told of it is known not to be explained.
    pub(crate) fn is_stopped(&self) -> bool
        ensures { result ≡ self.now.judge.is_stopped }
    {
        match &self.kept {
            Kept::Followed(followed) => followed.judge.is_stopped(),
            Kept::Settled(_) | Kept::Ended(_) => false,
        }
    }
}
