//! How many requesters of a race work at the same time.

ghost use Rattle.std.specs.Prelude.{◌≡◌};

use std::marker::Model;

/// So many requesters of a race, 1 to 7, who work at the same time: those of the numbers from 1 on.
#[derive(Clone, Copy, Debug, PartialEq, Eq)]
pub struct Workers {
    count: u8,
}

impl Model for Workers {
    ghost use Rattle.std.specs.Prelude.{ℕ};
    ghost use Rattle.chi_engine.specs.WorkerCount.{IsWorkerCount};

    ghost Value = { ℕ };

    ghost view = { λ w. w.count };

    ghost invariant = { λ w. IsWorkerCount w.count };

    ghost inverse = { λ n. record { count = n } };
}

impl Workers {
    ghost use Rattle.chi_engine.specs.WorkerCount.{IsWorkerCount, workers_of_count};

    /// The requesters 1 and 2.
    pub const TWO: Workers = Workers { count: 2 };

    /// So many, where that is 1 to 7.
    ///
    /// ```
    /// let workers = Workers::new(4).unwrap_or(Workers::TWO);
    /// ```
    pub fn new(count: u8) -> Option<Workers>
        ensures { result ≡ workers_of_count count }
    {
        if 1 <= count && count <= 7 {
            Some(Workers { count })
        } else {
            None
        }
    }

    /// How many they are, which is the number of the last one too.
    pub fn count(self) -> u8
        ensures value { result ≡ self }
        ensures workers { IsWorkerCount self }
    {
        self.count
    }
}
