//! The judge of a granule of a trace.

ghost use Rattle.std.specs.Prelude.{◌≡◌, false, IfOk};
ghost use Rattle.chi_trace.specs.Explains.{IsTrace};
ghost use Rattle.chi_judge.specs.Reaches.{IsJudgeOf};

use crate::judge::Judge;
use chi_trace::{Operation, operations_of};
use std::alloc::{AllocError, Global};

impl Judge {
    /// The judge of a granule that was told all its operations of a trace, from this word on. Where they stop being explained so
    /// many of those before are shown.
    ///
    /// ```
    /// let judge = Judge::of_trace(alloc, trace.operations(), 0x1000 / 8, 0, 16)?;
    /// ```
    pub fn of_trace(
        alloc: Global,
        ops: &[Operation],
        granule: u64,
        word: u64,
        shown: usize,
    ) -> Result<Judge, AllocError>
        requires traced { IsTrace ops.now }
        ensures judge { IfOk result (IsJudgeOf ops.now granule word) }
        ensures goes_on { IfOk result (λ judge. judge.is_stopped ≡ false) }
        ensures shown { IfOk result (λ judge. judge.shown ≡ shown) }
    {
        let mut own = operations_of(alloc, ops, granule)?;
        own.sort_by_key(|op| op.end)?;
        let mut judge = Judge::new(alloc, word, shown)?;
        for op in &own {
            judge.add(op)?;
        }
        Ok(judge)
    }
}
