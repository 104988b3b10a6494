//! The steps on the line: each takes effect at one moment, and shows the seat that took it what was found.

ghost use Rattle.std.specs.Prelude.{◌≡◌, ◌≤◌, ◌<◌, ℕ, [], true, IsTrue, IfOk, slice_index, MatchResult};
ghost use Rattle.chi_fields.specs.Extent.{granule_of, lies_in};
ghost use Rattle.chi_history.specs.Openings.{IsOpening};
ghost use Rattle.chi_history.specs.NumberLists.{has};
ghost use Rattle.chi_rule.specs.Seats.{IsKnown};
ghost use Rattle.chi_rule.specs.StepFacts.{Applies, Reads, Replaces, Settles};
ghost use Rattle.chi_rule.specs.Views.{all_below, alone, both, knower, rest_of};
ghost use Rattle.chi_lockstore.specs.LockFaults.{IsWithinLine};
ghost use Rattle.chi_lockstore.specs.Room.{IsSmall};
ghost use Rattle.chi_lockstore.specs.LockSeats.{IsAlone};
ghost use Rattle.crossbeam_utils.specs.Seq.{IsSamePass, cell_view};

use crate::cell_steps::{cut, load};
use crate::rule::{Cell, LINE_GRANULES, LinePass, Look, Settle, Whole, Words};
use crate::step_kinds::{ChosenExchange, ChosenOpening, LineExchange, OpeningCut};
use chi_fields::laws::access_is_lawful;
use chi_rule::{OpeningValues, Purpose, SplitNumber, SplitOff};
use std::alloc::{AllocError, Allocator};
use std::sync::Wait;

/// A cell of zeros, and the pass of all requesters of this opening.
pub(crate) fn begin<Q: ChosenOpening, A: Allocator + Copy>(
    alloc: A,
    _values: &OpeningValues<A>,
) -> Result<(Cell<A>, LinePass), AllocError>
    requires small { IsSmall A.row }
    requires asked { Q.opening ≡ _values.now }
    requires opening { IsOpening _values.now }
    requires line { IsWithinLine _values.now.region.granules }
    ensures cell { IfOk result (λ r. r.1.table_id ≡ r.0.table.shared.table_id) }
    ensures view { IfOk result (λ r. cell_view r.1 ≡ knower _values.now (all_below _values.now.requesters) []) }
{
    let (cell, mut pass) = Cell::<A>::ruled(alloc, [0; LINE_GRANULES])?;
    let _spare = cut::<OpeningCut<Q>, A>(&cell, &mut pass);
    Ok((cell, pass))
}

/// Exchanges the line for one with `next` in the access's granule, where it is still `current`. Where it
/// is not, the words found come back.
pub(crate) fn try_once<Q: ChosenExchange, A: Allocator, R: Wait>(
    cell: &Cell<A>,
    _values: &OpeningValues<A>,
    rt: &R,
    pass: &mut LinePass,
    purpose: &Purpose,
    granule: usize,
    next: u64,
    current: Words,
) -> Result<Words, Words>
    requires small { IsSmall A.row }
    requires own { pass.old.table_id ≡ cell.now.table.shared.table_id }
    requires asked { (purpose.now ≡ Q.purpose) × (current ≡ Q.current) }
    requires known { IsKnown _values.now (cell_view pass.old) }
    requires holds { has (cell_view pass.old).held purpose.now.src ≡ true }
    requires fits { IsTrue (lies_in purpose.now.access.addr purpose.now.access.len _values.now.region) }
    requires granule { granule ≡ granule_of purpose.now.access.addr _values.now.region }
    requires below { granule < 8 }
    requires applies { Applies _values.now purpose.now.access (slice_index current granule) next }
    ensures own { IsSamePass pass.old pass.new }
    ensures tried { MatchResult result
        (λ _. Replaces (cell_view pass.old) current purpose.now.src purpose.now.access (cell_view pass.new))
        (λ _. cell_view pass.new ≡ cell_view pass.old) }
{
    access_is_lawful(&purpose.access);
    let mut new = current;
    new[granule] = next;
    cell.compare_exchange_as::<LineExchange<Q>, R>(rt, pass, current, new)
}

/// The words of the line. A seat that holds all numbers finds those of what it has seen.
pub(crate) fn look<A: Allocator, R: Wait>(cell: &Cell<A>, rt: &R, pass: &mut LinePass) -> Words
    requires small { IsSmall A.row }
    requires own { pass.old.table_id ≡ cell.now.table.shared.table_id }
    requires seat { IsAlone (cell_view pass.old) }
    ensures own { IsSamePass pass.old pass.new }
    ensures read { Reads (cell_view pass.old) result (cell_view pass.new) }
{
    load::<Look, A, R>(cell, rt, pass)
}

/// A pass for one of the numbers. The old pass keeps the others.
pub(crate) fn give<Q: SplitNumber, A: Allocator>(
    cell: &Cell<A>,
    pass: &mut LinePass,
    _src: u8,
) -> LinePass
    requires small { IsSmall A.row }
    requires own { pass.old.table_id ≡ cell.now.table.shared.table_id }
    requires asked { _src ≡ Q.number }
    requires seat { IsAlone (cell_view pass.old) }
    requires holds { has (cell_view pass.old).held _src ≡ true }
    ensures own { IsSamePass pass.old pass.new × (result.table_id ≡ pass.old.table_id) }
    ensures rest { cell_view pass.new ≡ rest_of _src (cell_view pass.old) }
    ensures alone { cell_view result ≡ alone _src (cell_view pass.old) }
{
    cut::<SplitOff<Q>, A>(cell, pass)
}

/// Makes two passes one, and looks at the line: only this look shows how what both had seen goes together.
pub(crate) fn take_in<A: Allocator, R: Wait>(
    cell: &Cell<A>,
    rt: &R,
    pass: &mut LinePass,
    mut other: LinePass,
)
    requires small { IsSmall A.row }
    requires own { pass.old.table_id ≡ cell.now.table.shared.table_id }
    requires other_own { other.table_id ≡ cell.now.table.shared.table_id }
    requires seat { IsAlone (cell_view pass.old) }
    requires other_seat { IsAlone (cell_view other) }
    ensures own { IsSamePass pass.old pass.new }
    ensures settled { Settles (both (cell_view pass.old) (cell_view other)) (cell_view pass.new) }
{
    let free = cut::<Whole, A>(cell, &mut other);
    cell.join_pass::<Whole>(pass, free);
    load::<Settle, A, R>(cell, rt, pass);
}
