//! A set of requester numbers.

ghost use Rattle.std.specs.Prelude.{◌≡◌, ◌↔◌, ℕ, ◌<◌, ◌≤◌, true, IsTrue};
ghost use Rattle.chi_history.specs.NumberSets.{below, only, union, without};
ghost use Rattle.chi_history.specs.NumberLists.{has, size_of};

use arrayvec::ArrayVec;
use std::marker::Model;

/// How many requester numbers there are: 0 to 7.
pub const MOST_NUMBERS: u8 = 8;

/// A set of requester numbers 0 to 7, which a seat holds. It takes no memory.
///
/// ```
/// let mut numbers = Numbers::all(3);
/// numbers.remove(1); // 0 and 2 are left
/// ```
#[derive(Drop)]
pub struct Numbers {
    items: ArrayVec<u8, 8>,
}

impl Model for Numbers {
    ghost use Rattle.std.specs.Prelude.{List, ℕ};
    ghost use Rattle.chi_history.specs.NumberLists.{IsInOrder};

    ghost Value = { List ℕ };

    ghost view = { λ a. a.items.items };

    ghost invariant = { λ a. IsInOrder a.items.items };
}

impl Numbers {
    /// The numbers from 0 to `n - 1`.
    #[tactic(auto, unfolding(crate::specs::NumberLists::numbers_in))]
    pub fn all(n: u8) -> Numbers
        requires some { 1 ≤ n }
        requires most { n ≤ 8 }
        ensures { has result ≡ below n }
    {
        let mut items = ArrayVec::new();
        'numbers: for k in 0..MOST_NUMBERS {
            if k < n {
                items.push(k);
            }
        }
        Numbers { items }
    }

    /// That number alone.
    #[tactic(auto, unfolding(crate::specs::NumberLists::numbers_in))]
    pub fn only(n: u8) -> Numbers
        requires { n < 8 }
        ensures { has result ≡ only n }
    {
        let mut items = ArrayVec::new();
        'numbers: for k in 0..MOST_NUMBERS {
            if n == k {
                items.push(k);
            }
        }
        Numbers { items }
    }

    /// Whether the set has the number.
    pub fn has(&self, n: u8) -> bool
        ensures { result ≡ has self.now n }
    {
        self.items.contains(&n)
    }

    /// Whether the set has each number from 0 to `n - 1`.
    ///
    /// ```
    /// let is_whole = numbers.has_all(requesters);
    /// ```
    pub fn has_all(&self, n: u8) -> bool
        ensures { IsTrue result ↔ ((k : ℕ) → k < n → has self.now k ≡ true) }
    {
        'numbers: for k in 0..n {
            if !self.has(k) {
                return false;
            }
        }
        true
    }

    // Whether the set has the number k, which is not n.
    fn has_beside(&self, n: u8, k: u8) -> bool
        ensures { result ≡ without n (has self.now) k }
    {
        if k == n { false } else { self.has(k) }
    }

    // Whether this set or the other has the number.
    fn or_has(&self, other: &Numbers, k: u8) -> bool
        ensures { result ≡ union (has self.now) (has other.now) k }
    {
        if self.has(k) { true } else { other.has(k) }
    }

    /// How many numbers the set has.
    pub fn count(&self) -> usize
        ensures { result ≡ size_of (has self.now) }
    {
        self.items.len()
    }

    /// Takes a number out.
    #[tactic(auto, unfolding(crate::specs::NumberLists::numbers_in))]
    pub fn remove(&mut self, n: u8)
        requires { has self.old n ≡ true }
        ensures { has self.new ≡ without n (has self.old) }
    {
        let mut items = ArrayVec::new();
        'numbers: for k in 0..MOST_NUMBERS {
            if self.has_beside(n, k) {
                items.push(k);
            }
        }
        self.items = items;
    }

    /// Puts the numbers of another set in.
    #[tactic(auto, unfolding(crate::specs::NumberLists::numbers_in))]
    pub fn merge(&mut self, other: Numbers)
        ensures { has self.new ≡ union (has self.old) (has other) }
    {
        let _ = &other.items;
        let mut items = ArrayVec::new();
        'numbers: for k in 0..MOST_NUMBERS {
            if self.or_has(&other, k) {
                items.push(k);
            }
        }
        self.items = items;
    }
}
