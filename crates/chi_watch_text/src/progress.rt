//! How far a watch is.

use chi_search::{NoProgress, Progress};
use chi_watch::Counts;

/// What is told how far a watch is, to show it until something else is written. What it does with that changes no answer.
pub trait WatchProgress: Progress {
    ghost use Rattle.std.specs.Prelude.{ℕ};
    ghost use Rattle.chi_search.specs.Looks.{Search};

    /// So much was told by this time.
    fn reached(&mut self, counts: Counts, time: u64)
        ensures looked { (s : Search) (n : ℕ) → Self.looked s self.old n → Self.looked s self.new n }
        ensures states { (n : ℕ) → Self.states self.old n → Self.states self.new n };

    /// Takes back what is shown, since something else is to be written. It knows no more of the states than before.
    fn clear(&mut self)
        ensures looked { (s : Search) (n : ℕ) → Self.looked s self.old n → Self.looked s self.new n }
        ensures no_more { (s : Search) (n : ℕ) → Self.looked s self.new n → Self.looked s self.old n }
        ensures states { (n : ℕ) → Self.states self.old n → Self.states self.new n };
}

impl WatchProgress for NoProgress {
    fn reached(&mut self, _counts: Counts, _time: u64) {}

    fn clear(&mut self) {}
}
