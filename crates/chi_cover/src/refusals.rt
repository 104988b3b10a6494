//! How many requests were refused for each reason.

ghost use Rattle.std.specs.Prelude.{◌≡◌, ◌<◌, [], ◌∷◌};
ghost use Rattle.chi_fields.specs.declared.refusal.Refusal.{Refusal};
ghost use Rattle.chi_cover.specs.Refusals.{AreRefusalsAdded, AreRefused, refusal_number, refused_in};

use chi_fields::Refusal;
use std::marker::Model;

/// A reason, by number.
fn refusal_number(refusal: Refusal) -> usize
    ensures number { result ≡ refusal_number refusal }
    ensures below { result < 6 }
{
    match refusal {
        Refusal::UnknownOpcode => 0,
        Refusal::ReservedSize => 1,
        Refusal::SizeOutOfProfile => 2,
        Refusal::Misaligned => 3,
        Refusal::OutOfRegion => 4,
        Refusal::BadByteEnable => 5,
    }
}

/// One more for a reason.
fn add_refusal(counts: &mut [u64], refusal: Refusal)
    ensures { AreRefusalsAdded (refusal ∷ []) counts.old counts.new }
{
    let number = refusal_number(refusal);
    if number < counts.len() {
        counts[number] = counts[number].saturating_add(1);
    }
}

/// One more for each of these reasons.
fn add_each(counts: &mut [u64], refusals: &[Refusal])
    ensures { AreRefusalsAdded refusals.now counts.old counts.new }
{
    for refusal in refusals {
        add_refusal(counts, *refusal);
    }
}

/// How many requests were refused for each reason, of the traces whose refusals were added. 2^64 - 1 stands for that many and
/// more.
#[derive(Debug, Drop)]
pub struct Refusals {
    counts: [u64; 6],
}

impl Model for Refusals {
    ghost use Rattle.std.specs.Prelude.{ℕ, List};

    ghost Value = { List ℕ };

    // The count of each reason stands at its number.
    ghost view = { λ r. r.counts };
}

impl Refusals {
    /// Counts of which each is 0.
    ///
    /// ```
    /// let mut refusals = Refusals::none();
    /// ```
    pub fn none() -> Refusals
        ensures { (reason : Refusal) → refused_in result reason ≡ 0 }
    {
        Refusals { counts: [0; 6] }
    }

    /// Adds the refusals of a trace: each reason counts the requests that were refused for it.
    ///
    /// ```
    /// refusals.add(recorded.refusals());
    /// ```
    pub fn add(&mut self, refusals: &[Refusal])
        ensures { AreRefused refusals.now self.old self.new }
    {
        add_each(&mut self.counts, refusals);
    }

    /// How many requests were refused for a reason.
    ///
    /// ```
    /// let misaligned = refusals.count(Refusal::Misaligned);
    /// ```
    #[tactic(auto, unfolding(crate::specs::Refusals::refused_in))]
    pub fn count(&self, reason: Refusal) -> u64
        ensures { result ≡ refused_in self.now reason }
    {
        self.counts[refusal_number(reason)]
    }
}
