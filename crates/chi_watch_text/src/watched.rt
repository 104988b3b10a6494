//! What is found of events that are read line by line.

ghost use Rattle.std.specs.Prelude.{◌≡◌};
ghost use Rattle.chi_watch_text.specs.FoundGranule.{is_found, verdict_of};

use crate::fault::LinesFault;
use crate::waiting::Waiting;
use chi_judge::{Reach, Standing};
use chi_watch::{Counts, Ending};
use thiserror::Error;

/// A granule that no order explains, by its number; the line by which that was seen, counted from 1; and how far its operations
/// can be explained, with how many states were looked at for that where it was cut short.
#[derive(Debug, Drop)]
pub struct FoundGranule {
    pub granule: u64,
    pub line: u64,
    pub reach: Reach,
    pub cut_short: Option<u64>,
}

/// What is found of events that are read line by line: granules that no order explains, each with the line by which that was first
/// seen; what is said where the events end, or nothing where it stopped at the line of the last granule found; and how much was
/// told. `waiting` are the first 16 requests that are outstanding where the events end. `unjudged` is of how many granules that were
/// told of nothing is said. `is_ended` is whether the last line that was taken tells the end. `kept` is the lines that were taken, as they stand one after the other, where they are kept.
#[derive(Debug, Drop)]
pub struct Watched {
    pub found: Vec<FoundGranule>,
    pub ending: Option<Ending>,
    pub counts: Counts,
    pub waiting: Vec<Waiting>,
    pub unjudged: u64,
    pub is_ended: bool,
    pub kept: Option<Vec<u8>>,
}

/// Why events are watched no further, and the granules that were found by then: each that no order explains, with the line by which
/// that was first seen.
#[derive(Debug, Drop, Error)]
#[error("{fault}")]
pub struct Unfinished {
    pub found: Vec<FoundGranule>,
    pub fault: LinesFault,
}

impl Watched {
    /// Whether all that was watched is explained: some order explains it; of a granule at least none does; or neither was found.
    ///
    /// ```
    /// let is_right = watched.verdict() == Standing::Explained;
    /// ```
    pub fn verdict(&self) -> Standing
        ensures { result ≡ verdict_of self.now }
    {
        if self.found.len() > 0 {
            return Standing::Unexplained;
        }
        match &self.ending {
            None => Standing::Explained,
            Some(ending) => {
                if ending.unexplained.len() > 0 {
                    Standing::Unexplained
                } else if ending.undecided.len() > 0 {
                    Standing::Undecided
                } else {
                    Standing::Explained
                }
            }
        }
    }
}

/// Whether a granule was found.
pub(crate) fn is_found(found: &[FoundGranule], granule: u64) -> bool
    ensures { result ≡ is_found granule found.now }
{
    found.iter().any(|it| it.granule == granule)
}
