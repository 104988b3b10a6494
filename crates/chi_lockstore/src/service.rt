//! An access on the line, until its exchange wins.

ghost use Rattle.std.specs.Prelude.{◌≡◌, true, IsTrue};
ghost use Rattle.chi_fields.specs.Extent.{lies_in};
ghost use Rattle.chi_history.specs.Openings.{IsOpening};
ghost use Rattle.chi_history.specs.HomeClauses.{Completes};
ghost use Rattle.chi_history.specs.NumberLists.{has};
ghost use Rattle.chi_rule.specs.Seats.{IsKnown};
ghost use Rattle.chi_lockstore.specs.LockFaults.{IsWithinLine};
ghost use Rattle.chi_lockstore.specs.Room.{IsSmall};
ghost use Rattle.crossbeam_utils.specs.Seq.{IsSamePass, cell_view};

use crate::rule::{Cell, LinePass};
use crate::steps::{look, try_once};
use chi_lanes::{Reply, apply};
use chi_rule::{OpeningValues, Purpose};
use std::alloc::Allocator;
use std::marker::Brand;
use std::sync::Wait;

/// Serves the access on the words found, and again on those found instead, until no other came between.
pub(crate) fn complete<A: Allocator, R: Wait>(
    cell: &Cell<A>,
    values: &OpeningValues<A>,
    rt: &R,
    pass: &mut LinePass,
    purpose: &Purpose,
) -> Reply
    requires small { IsSmall A.row }
    requires opening { IsOpening values.now }
    requires line { IsWithinLine values.now.region.granules }
    requires own { pass.old.table_id ≡ cell.now.table.shared.table_id }
    requires known { IsKnown values.now (cell_view pass.old) }
    requires holds { has (cell_view pass.old).held purpose.now.src ≡ true }
    requires fits { IsTrue (lies_in purpose.now.access.addr purpose.now.access.len values.now.region) }
    ensures own { IsSamePass pass.old pass.new }
    ensures known { IsKnown values.now (cell_view pass.new) }
    ensures held { (cell_view pass.new).held ≡ (cell_view pass.old).held }
    ensures done { Completes values.now (has (cell_view pass.old).held) (cell_view pass.old).seen (cell_view pass.new).seen purpose.now.src purpose.now.access result 0 }
{
    let image = values.image();
    let granule = purpose.access.granule(&values.region());
    let mask = image[granule];
    let mut current = look(cell, rt, pass);
    'tries: for _ in rt.forever() {
        let (word, reply) = apply(current[granule] ^ mask, &purpose.access);
        match try_once::<Brand, A, R>(
            cell,
            values,
            rt,
            pass,
            purpose,
            granule,
            word ^ mask,
            current,
        ) {
            Ok(_) => return reply,
            Err(found) => current = found,
        }
    }
    unreachable!()
}
