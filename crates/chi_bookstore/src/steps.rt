//! The atomic steps on the words.
ghost use Rattle.std.specs.Prelude.{◌≡◌, ◌<◌, [], true, IsTrue, IfOk};
ghost use Rattle.chi_fields.specs.Extent.{lies_in, granule_of};
ghost use Rattle.chi_history.specs.Openings.{IsOpening};
ghost use Rattle.chi_history.specs.NumberLists.{has};
ghost use Rattle.chi_rule.specs.Views.{all_below, alone, both, knower, rest_of};
ghost use Rattle.chi_rule.specs.StepFacts.{Applies, Exchanges, Looks, ReadsAt, Settles};

use crate::rule::{BookTable, Glue, Look, ReadOne, Serve, Settle, TableSeat};
use chi_fields::laws::access_is_lawful;
use chi_rule::{OpeningValues, Purpose, SplitNumber, SplitOff};
use std::alloc::{AllocError, Allocator};

// The words at the opening, all zeros, and the first seat, which holds every number.
pub(crate) fn begin<A: Allocator + Copy>(
    alloc: A,
    values: &OpeningValues<A>,
) -> Result<(BookTable<A>, TableSeat), AllocError>
    requires { IsOpening values.now }
    ensures { IfOk result (λ r. (r.1.table_id ≡ r.0.shared.table_id) × (r.0.shared.key ≡ values.now) × (r.0.shared.table_id.words ≡ values.now.region.granules) × (r.1.me ≡ (knower values.now (all_below values.now.requesters) [], []))) }
{
    let granules = usize::from(values.region().granules());
    let words = vec![in alloc; 0u64; granules]?;
    BookTable::of_words(alloc, words.as_slice(), values)
}

// The load of a try.
pub(crate) fn look<A: Allocator>(table: &BookTable<A>, seat: &mut TableSeat, granule: usize) -> u64
    requires own { seat.old.table_id ≡ table.now.shared.table_id }
    requires seat { seat.old.me.0 ≡ knower table.now.shared.key seat.old.me.0.held seat.old.me.0.seen }
    requires granule { granule < table.now.shared.key.region.granules }
    requires word { granule < table.now.shared.table_id.words }
    ensures own { (seat.new.table_id ≡ seat.old.table_id) × (seat.new.me.1 ≡ seat.old.me.1) }
    ensures looks { Looks seat.old.me.0 granule result seat.new.me.0 }
{
    table.shared.load::<Look>(seat, granule)
}

// The exchange of a try: `next` for `first`. It answers the word that it found.
pub(crate) fn exchange<A: Allocator>(
    table: &BookTable<A>,
    seat: &mut TableSeat,
    granule: usize,
    first: u64,
    next: u64,
    purpose: &Purpose,
) -> u64
    requires own { seat.old.table_id ≡ table.now.shared.table_id }
    requires seat { seat.old.me.0 ≡ knower table.now.shared.key seat.old.me.0.held seat.old.me.0.seen }
    requires word { granule < table.now.shared.table_id.words }
    requires holds { has seat.old.me.0.held purpose.now.src ≡ true }
    requires granule { granule ≡ granule_of purpose.now.access.addr table.now.shared.key.region }
    requires fits { IsTrue (lies_in purpose.now.access.addr purpose.now.access.len table.now.shared.key.region) }
    requires applies { Applies table.now.shared.key purpose.now.access first next }
    ensures own { (seat.new.table_id ≡ seat.old.table_id) × (seat.new.me.1 ≡ seat.old.me.1) }
    ensures exchanged { Exchanges seat.old.me.0 first purpose.now.src purpose.now.access result seat.new.me.0 }
{
    access_is_lawful(&purpose.access);
    table
        .shared
        .compare_exchange_with::<Serve>(seat, granule, first, next, purpose)
}

// A load of a snapshot, which leaves what the seat has seen.
pub(crate) fn read_one<A: Allocator>(
    table: &BookTable<A>,
    seat: &mut TableSeat,
    granule: usize,
) -> u64
    requires own { seat.old.table_id ≡ table.now.shared.table_id }
    requires seat { seat.old.me.0 ≡ knower table.now.shared.key seat.old.me.0.held seat.old.me.0.seen }
    requires granule { granule < table.now.shared.key.region.granules }
    requires word { granule < table.now.shared.table_id.words }
    ensures own { (seat.new.table_id ≡ seat.old.table_id) × (seat.new.me.1 ≡ seat.old.me.1) }
    ensures reads { ReadsAt seat.old.me.0 granule result seat.new.me.0 }
{
    table.shared.load::<ReadOne>(seat, granule)
}

// A seat for one number alone. `Q` names the number to the rule.
pub(crate) fn give<Q: SplitNumber, A: Allocator>(
    table: &BookTable<A>,
    seat: &mut TableSeat,
    _src: u8,
) -> TableSeat
    requires own { seat.old.table_id ≡ table.now.shared.table_id }
    requires asked { _src ≡ Q.number }
    requires some { 0 < table.now.shared.table_id.words }
    requires seat { seat.old.me.0 ≡ knower table.now.shared.key seat.old.me.0.held seat.old.me.0.seen }
    requires holds { has seat.old.me.0.held _src ≡ true }
    ensures own { (seat.new.table_id ≡ seat.old.table_id) × (result.table_id ≡ seat.old.table_id) }
    ensures rest { seat.new.me ≡ (rest_of _src seat.old.me.0, seat.old.me.1) }
    ensures alone { result.me ≡ (alone _src seat.old.me.0, []) }
{
    table.shared.split_seat::<SplitOff<Q>>(seat)
}

// Two seats become one. The load shows what both had seen.
pub(crate) fn take_in<A: Allocator>(table: &BookTable<A>, seat: &mut TableSeat, other: TableSeat)
    requires own { (seat.old.table_id ≡ table.now.shared.table_id) × (seat.old.me.1 ≡ []) }
    requires other_own { (other.table_id ≡ table.now.shared.table_id) × (other.me.1 ≡ []) }
    requires some { 0 < table.now.shared.table_id.words }
    requires seat { seat.old.me.0 ≡ knower table.now.shared.key seat.old.me.0.held seat.old.me.0.seen }
    ensures own { (seat.new.table_id ≡ seat.old.table_id) × (seat.new.me.1 ≡ []) }
    ensures settled { Settles (both seat.old.me.0 other.me.0) seat.new.me.0 }
{
    table.shared.join_seat::<Glue>(seat, other);
    table.shared.load::<Settle>(seat, 0);
}
