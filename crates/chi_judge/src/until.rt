//! What had happened before a time.

ghost use Rattle.std.specs.Prelude.{◌≡◌, ◌≤◌, ℕ, [], ◌∷◌, List, IfOk, option_to_list};
ghost use Rattle.chi_trace.specs.declared.operation.Operation.{Operation};
ghost use Rattle.chi_judge.specs.Judges.{Keeps};
ghost use Rattle.chi_judge.specs.Until.{cut_before, until};

use crate::judge::Judge;
use chi_trace::{Operation, cut};
use std::alloc::{AllocError, Global};

/// The operation as far as it had happened before a time, where there is one: none where it had not started by then, and without
/// its reply where that had not come.
///
/// ```
/// if let Some(known) = happened_until(&ended, first_time_left_out) {
///     judge.add(&known)?;
/// }
/// ```
pub fn happened_until(op: &Operation, time: Option<u64>) -> Option<Operation>
    ensures { option_to_list result ≡ until time (op.now ∷ []) }
{
    let Some(time) = time else {
        return Some(*op);
    };
    if op.start >= time {
        return None;
    }
    let mut known = *op;
    if op.end >= time {
        known.reply = None;
    }
    Some(known)
}

/// What had happened before a time of operations in any order.
fn happened_before(
    alloc: Global,
    ops: &[Operation],
    time: u64,
) -> Result<Vec<Operation>, AllocError>
    ensures { IfOk result (λ known. known.items ≡ cut_before time ops.now) }
{
    if time == 0 {
        return Ok(Vec::new(alloc));
    }
    cut(alloc, ops, time - 1)
}

impl Judge {
    /// Leaves out what happened from a time on: operations that had not started by then, and replies that had not come. It keeps what
    /// had happened before where the time is no earlier than the horizon.
    ///
    /// ```
    /// judge.cut_before(alloc, first_time_left_out)?;
    /// ```
    pub fn cut_before(&mut self, alloc: Global, time: u64) -> Result<(), AllocError>
        ensures keeps { IfOk result (λ _. (words : List ℕ) (told : List Operation) (now : ℕ) → self.old.horizon ≤ time → Keeps words told now self.old → Keeps words (cut_before time told) now self.new) }
        ensures horizon { IfOk result (λ _. self.new.horizon ≡ self.old.horizon) }
        ensures latest { IfOk result (λ _. self.new.latest ≡ self.old.latest) }
        ensures shown { IfOk result (λ _. self.new.shown ≡ self.old.shown) }
        ensures stopped { IfOk result (λ _. self.new.is_stopped ≡ self.old.is_stopped) }
    {
        self.kept = happened_before(alloc, &self.kept, time)?;
        self.word = None;
        self.ahead = Vec::new(alloc);
        self.seen = 0;
        Ok(())
    }
}
