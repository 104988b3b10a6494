//! A plan: how many operations each bin has to count to be covered, and which bins are excluded.

ghost use Rattle.std.specs.Prelude.{◌≡◌, ◌≤◌, [], IfOk, OnErr, OnOk, Some, count_by, is_some, length, map};
ghost use Rattle.chi_cover.specs.Bins.{all_bins};
ghost use Rattle.chi_cover.specs.Counts.{wanted_of};
ghost use Rattle.chi_cover.specs.Plan.{IsPlan, IsRuleAdded, goal_by, goal_in};

use crate::bin::Bin;
use crate::number::number;
use crate::pattern::bin_fits;
use crate::traffic_group::all_bins;
use std::alloc::{AllocError, Global};
use std::marker::Model;

/// How many bins there are.
pub(crate) const BINS: usize = 1410;

/// What is said of the bins whose names fit a pattern: how many operations each has to count to be covered, or with no goal that they
/// are excluded. `why` is a reason, and empty where there is none. Both texts are UTF-8.
#[derive(Debug, Drop)]
pub struct Rule {
    pub bins: Vec<u8>,
    pub goal: Option<u64>,
    pub why: Vec<u8>,
}

impl Model for Rule {
    ghost use Rattle.chi_cover.specs.Plan.{RuleValue};

    ghost Value = { RuleValue };

    ghost view = { λ r. record { bins = r.bins.items; goal = r.goal; why = r.why.items } };
}

/// How many operations each bin has to count to be covered: as many as a goal of all, or as the last rule says whose pattern fits its
/// name. A bin that is excluded counts neither as covered nor as missing.
#[derive(Debug, Drop)]
pub struct Plan {
    general: u64,
    rules: Vec<Rule>,
    goals: Vec<Option<u64>>,
}

impl Model for Plan {
    ghost use Rattle.std.specs.Prelude.{◌≡◌, length};
    ghost use Rattle.chi_cover.specs.Plan.{PlanValue};

    ghost Value = { PlanValue };

    // The goal of each bin stands at its number.
    ghost view = { λ p. record { goal = p.general; rules = p.rules.items; goals = p.goals.items } };

    ghost invariant = { λ p. length p.goals.items ≡ 1410 };
}

// A goal for each bin.
fn same_goals(alloc: Global, goal: u64) -> Result<Vec<Option<u64>>, AllocError>
    ensures { IfOk result (λ goals. goals.items ≡ map (λ bin. Some goal) all_bins) }
{
    let mut goals = Vec::new(alloc);
    for _bin in &all_bins(alloc)? {
        goals.push(Some(goal))?;
    }
    Ok(goals)
}

// How many of these are goals.
fn goals_given(goals: &[Option<u64>]) -> usize
    ensures { result ≡ count_by is_some goals.now }
{
    goals.iter().filter(|goal| goal.is_some()).count()
}

impl Plan {
    /// The plan in which each bin has to count so many operations. With 0 each is covered.
    ///
    /// ```
    /// let plan = Plan::of_goal(alloc, 1)?;
    /// ```
    pub fn of_goal(alloc: Global, goal: u64) -> Result<Plan, AllocError>
        ensures { IfOk result (IsPlan goal []) }
    {
        Ok(Plan {
            general: goal,
            rules: Vec::new(alloc),
            goals: same_goals(alloc, goal)?,
        })
    }

    /// Adds a rule, which comes after the others. Where memory is refused, none is added.
    ///
    /// ```
    /// plan.add(alloc, Rule { bins, goal: None, why })?; // "ReadNoSnp, big-endian, *", "flits have no byte order of reads"
    /// ```
    pub fn add(&mut self, alloc: Global, rule: Rule) -> Result<(), AllocError>
        ensures ok { OnOk result (IsRuleAdded rule self.old self.new) }
        ensures err { OnErr result (self.new ≡ self.old) }
    {
        let goals = self.goals_with(alloc, &rule)?;
        self.rules.push(rule)?;
        self.goals = goals;
        Ok(())
    }

    // The goal of each bin after a rule.
    fn goals_with(&self, alloc: Global, rule: &Rule) -> Result<Vec<Option<u64>>, AllocError>
        ensures { IfOk result (λ goals. goals.items ≡ map (λ bin. goal_by rule.now (goal_in self.now bin) bin) all_bins) }
    {
        let mut goals = Vec::new(alloc);
        for bin in &all_bins(alloc)? {
            let fits = bin_fits(alloc, &rule.bins, *bin)?;
            goals.push(if fits { rule.goal } else { self.goal_of(*bin) })?;
        }
        Ok(goals)
    }

    /// The goal of all bins, which is that of a bin where no rule has its name.
    ///
    /// ```
    /// let goal = plan.goal(); // 1
    /// ```
    pub fn goal(&self) -> u64
        ensures { result ≡ self.now.goal }
    {
        self.general
    }

    /// The rules, in the order in which they were added.
    ///
    /// ```
    /// for rule in plan.rules() { .. }
    /// ```
    pub fn rules(&self) -> &[Rule]
        ensures { result.now ≡ self.now.rules }
    {
        &self.rules
    }

    /// How many operations a bin has to count to be covered. `None` is answered of a bin that is excluded.
    ///
    /// ```
    /// let goal = plan.goal_of(Bin::Wrapped { len: 4 }); // Some(1)
    /// ```
    #[tactic(auto, unfolding(crate::specs::Plan::goal_in))]
    pub fn goal_of(&self, bin: Bin) -> Option<u64>
        ensures { result ≡ goal_in self.now bin }
    {
        match self.goals.get(number(bin)) {
            Some(goal) => *goal,
            None => None,
        }
    }

    /// How many bins are not excluded.
    ///
    /// ```
    /// let missing = plan.wanted() - covered.covered(&plan);
    /// ```
    pub fn wanted(&self) -> usize
        ensures value { result ≡ wanted_of (goal_in self.now) all_bins }
        ensures most { result ≤ 1410 }
    {
        goals_given(&self.goals)
    }

    // The goals, in the order of the bins' numbers.
    pub(crate) fn goals(&self) -> &[Option<u64>]
        ensures goals { result.now ≡ self.now.goals }
        ensures long { length result.now ≡ 1410 }
    {
        &self.goals
    }
}
