//! How far a search is.

ghost use Rattle.std.specs.Prelude.{⊤};

/// What is told how far a search is, to show it, to count, or to end soon. It changes no answer but to one that is undecided.
///
/// ```
/// #[derive(Drop)]
/// struct States(u64);
///
/// impl Progress for States {
///     ghost states = { λ s n. s.0 ≡ min n (2 ^ 64 - 1) };
///     ghost looked = { λ k s n. s.0 ≡ min n (2 ^ 64 - 1) };
///     ghost are_states = { λ s n is. is };
///
///     fn look(&mut self, _left: u64) -> u64 {
///         self.0 = self.0.saturating_add(1);
///         1
///     }
///
///     fn before_verdict(&mut self) {}
///
///     fn after_verdict(&mut self, _operations: usize, _pending: usize) {}
///
///     fn cut_short(&self) -> Option<u64> {
///         None
///     }
/// }
/// ```
pub trait Progress {
    ghost use Rattle.std.specs.Prelude.{◌≡◌, ℕ, ◌+◌, ◌<◌, ◌≤◌};
    ghost use Rattle.chi_search.specs.Looks.{IsCutShort, LookedMore, Search, after_verdict, for_verdict};

    /// So many states were looked at in all.
    ghost states: { Self → ℕ → Type 0 };

    /// What it knows of the number of states that were counted, the last of them in such searches, fits this number.
    ghost looked: { Search → Self → ℕ → Type 0 };

    /// A state is looked at, where as many as are left may be: as how many it counts. In a search for a verdict that is one. More than
    /// one lets a search that follows it end sooner. A search breadth first that found more states than it may look at ends, and
    /// counts as many of them as were left.
    fn look(&mut self, left: u64) -> u64
        requires { 0 < left }
        ensures some { 0 < result }
        ensures within { result ≤ left }
        ensures one { (n : ℕ) → looked for_verdict self.old n → result ≡ 1 }
        ensures looked { LookedMore looked self.old self.new result }
        ensures states { (n : ℕ) → states self.old n → states self.new (n + 1) };

    /// A search for a verdict begins.
    fn before_verdict(&mut self)
        ensures { (n : ℕ) → states self.old n → looked for_verdict self.new n };

    /// A verdict of so many operations was found, of a granule of which so many were pending at one time, at most. The searches that
    /// follow only say more of it.
    fn after_verdict(&mut self, operations: usize, pending: usize)
        ensures { (n : ℕ) → looked for_verdict self.old n → looked (after_verdict n) self.new n };

    /// How many states were looked at after the last verdict, where it then ended the searches that follow.
    fn cut_short(&self) -> Option<u64>
        ensures { IsCutShort states looked self.now result };

    /// In a search for a verdict each state that is counted is one that was looked at.
    ghost are_states: { (p : Self) (n : ℕ) → looked for_verdict p n → states p n };
}

/// Takes no notice of how far a search is.
#[derive(Clone, Copy, Debug)]
pub struct NoProgress;

impl Progress for NoProgress {
    ghost use Rattle.std.specs.Prelude.{⊤};

    ghost states = { λ p n. ⊤ };

    ghost looked = { λ s p n. ⊤ };

    ghost are_states = { λ p n is. is };

    fn look(&mut self, _left: u64) -> u64 {
        1
    }

    fn before_verdict(&mut self) {}

    fn after_verdict(&mut self, _operations: usize, _pending: usize) {}

    fn cut_short(&self) -> Option<u64> {
        None
    }
}
