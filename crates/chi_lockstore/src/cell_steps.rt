//! The cell's steps, each called here alone: that the cell fits in memory is shown once for each.

ghost use Rattle.std.specs.Prelude.{◌≡◌, []};
ghost use Rattle.chi_rule.specs.Rule.{Ruled};
ghost use Rattle.chi_lockstore.specs.Room.{IsSmall};
ghost use Rattle.crossbeam_utils.specs.Register.{Forks, Turns};
ghost use Rattle.crossbeam_utils.specs.Seq.{IsSamePass, cell_view};

use crate::rule::{Cell, LinePass, Words};
use atomic_table::Split;
use chi_rule::View;
use crossbeam_utils::rule::Outcome;
use std::alloc::Allocator;
use std::sync::Wait;

/// The words of the line, and what a look shows.
pub(crate) fn load<M: Outcome<Words, View>, A: Allocator, R: Wait>(
    cell: &Cell<A>,
    rt: &R,
    pass: &mut LinePass,
) -> Words
    requires small { IsSmall A.row }
    requires own { pass.old.table_id ≡ cell.now.table.shared.table_id }
    requires rule { Turns (Ruled 8) pass.old.id (cell_view pass.old) (λ x. x) M.then }
    ensures own { IsSamePass pass.old pass.new }
    ensures shown { M.then (cell_view pass.old) result result (cell_view pass.new) }
{
    cell.load_as::<M, R>(rt, pass)
}

/// A part of the pass's view, as a pass of its own.
pub(crate) fn cut<M: Split<View>, A: Allocator>(cell: &Cell<A>, pass: &mut LinePass) -> LinePass
    requires small { IsSmall A.row }
    requires own { pass.old.table_id ≡ cell.now.table.shared.table_id }
    requires rule { Forks (Ruled 8) pass.old.id (cell_view pass.old) (M.left (cell_view pass.old)) (M.right (cell_view pass.old)) }
    ensures own { IsSamePass pass.old pass.new × (result.table_id ≡ pass.old.table_id) × (result.me.1 ≡ []) }
    ensures left { cell_view pass.new ≡ M.left (cell_view pass.old) }
    ensures right { cell_view result ≡ M.right (cell_view pass.old) }
{
    cell.split_pass::<M>(pass)
}
