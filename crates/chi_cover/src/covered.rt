//! A table of coverage: how many operations each bin has counted.

ghost use Rattle.std.specs.Prelude.{◌≡◌, ◌≤◌, IfOk, OnErr, OnOk, length};
ghost use Rattle.chi_trace.specs.Explains.{IsTrace};
ghost use Rattle.chi_cover.specs.Bins.{all_bins};
ghost use Rattle.chi_cover.specs.Counts.{IsAdded, count_in, covered_of, is_covered, percent_of};
ghost use Rattle.chi_cover.specs.Plan.{goal_in};

use crate::bin::Bin;
use crate::measured::add_operations;
use crate::number::number;
use crate::plan::{BINS, Plan};
use chi_trace::Operation;
use std::alloc::{AllocError, Global};
use std::marker::Model;

/// Whether a bin that has counted so many operations is covered, by its goal. One that is excluded has none.
pub(crate) fn is_covered(goal: Option<u64>, count: u64) -> bool
    ensures { result ≡ is_covered goal count }
{
    match goal {
        Some(goal) => count >= goal,
        None => false,
    }
}

/// How many operations each bin has counted, of the traces that were added. 2^64 - 1 stands for that many and more.
#[derive(Debug, Drop)]
pub struct Covered {
    counts: Vec<u64>,
}

impl Model for Covered {
    ghost use Rattle.std.specs.Prelude.{◌≡◌, ℕ, List, length};

    ghost Value = { List ℕ };

    // The count of each bin stands at its number.
    ghost view = { λ c. c.counts.items };

    ghost invariant = { λ c. length c.counts.items ≡ 1410 };
}

impl Covered {
    /// A table in which no bin has counted an operation.
    ///
    /// ```
    /// let mut covered = Covered::new(alloc)?;
    /// ```
    pub fn new(alloc: Global) -> Result<Covered, AllocError>
        ensures { IfOk result (λ covered. (bin : Bin) → count_in covered bin ≡ 0) }
    {
        Ok(Covered {
            counts: vec![in alloc; 0; BINS]?,
        })
    }

    /// Adds the operations of a trace: each bin counts those that it is of. Where memory is refused, none is added.
    ///
    /// ```
    /// covered.add(alloc, recorded.trace().operations())?;
    /// ```
    pub fn add(&mut self, alloc: Global, ops: &[Operation]) -> Result<(), AllocError>
        requires { IsTrace ops.now }
        ensures ok { OnOk result (IsAdded ops.now self.old self.new) }
        ensures err { OnErr result (self.new ≡ self.old) }
    {
        let mut counts = Vec::from_slice(alloc, &self.counts)?;
        add_operations(alloc, &mut counts, ops)?;
        self.counts = counts;
        Ok(())
    }

    /// How many operations a bin has counted.
    ///
    /// ```
    /// let additions = covered.count(Bin::Wrapped { len: 4 });
    /// ```
    #[tactic(auto, unfolding(crate::specs::Counts::count_in))]
    pub fn count(&self, bin: Bin) -> u64
        ensures { result ≡ count_in self.now bin }
    {
        match self.counts.get(number(bin)) {
            Some(count) => *count,
            None => 0,
        }
    }

    /// How many bins are covered: those that have counted as many operations as the plan wants of them.
    ///
    /// ```
    /// let is_whole = covered.covered(&plan) == plan.wanted();
    /// ```
    pub fn covered(&self, plan: &Plan) -> usize
        ensures value { result ≡ covered_of (goal_in plan.now) (count_in self.now) all_bins }
        ensures most { result ≤ 1410 }
    {
        let goals = plan.goals();
        let mut covered = 0;
        for number in 0..BINS {
            if is_covered(goals[number], self.counts[number]) {
                covered += 1;
            }
        }
        covered
    }

    /// How many bins there are.
    ///
    /// ```
    /// let excluded = Covered::bins() - plan.wanted();
    /// ```
    pub fn bins() -> usize
        ensures { result ≡ length all_bins }
    {
        BINS
    }

    /// How many of a hundred bins that the plan wants are covered, rounded down; 100 where it wants none.
    ///
    /// ```
    /// let is_enough = covered.percent(&plan) >= 90;
    /// ```
    pub fn percent(&self, plan: &Plan) -> usize
        ensures { result ≡ percent_of (goal_in plan.now) (count_in self.now) }
    {
        match plan.wanted() {
            0 => 100,
            wanted => self.covered(plan) * 100 / wanted,
        }
    }
}
