//! What is required of events.

ghost use Rattle.std.specs.Prelude.{◌≡◌};
ghost use Rattle.chi_watch_text.specs.Required.{is_nothing, missing_of};

use crate::watched::Watched;

/// What is required of events, beside that some order explains them.
///
/// - `end`: the last line tells the end.
/// - `operations`: at least so many operations ended.
/// - `quiet`: no request is outstanding.
/// - `judged`: no granule is left unjudged.
#[derive(Clone, Copy, Debug, PartialEq, Eq)]
pub struct Required {
    pub end: bool,
    pub operations: u64,
    pub quiet: bool,
    pub judged: bool,
}

impl Required {
    /// What of this does not hold of what was watched.
    ///
    /// ```
    /// let missing = options.required.missing(&watched);
    /// ```
    pub fn missing(&self, watched: &Watched) -> Required
        ensures { result ≡ missing_of self.now watched.now }
    {
        Required {
            end: self.end && !watched.is_ended,
            operations: if watched.counts.ended < self.operations {
                self.operations
            } else {
                0
            },
            quiet: self.quiet && watched.counts.outstanding > 0,
            judged: self.judged && watched.unjudged > 0,
        }
    }

    /// Whether nothing is required.
    ///
    /// ```
    /// let holds = options.required.missing(&watched).is_nothing();
    /// ```
    pub fn is_nothing(&self) -> bool
        ensures { result ≡ is_nothing self.now }
    {
        !self.end && self.operations == 0 && !self.quiet && !self.judged
    }
}
