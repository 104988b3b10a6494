//! Tries: a load and one compare-exchange, again where the exchange was lost.

ghost use Rattle.std.specs.Prelude.{◌≡◌, ◌≤◌, true, IsTrue, MatchOption};
ghost use Rattle.chi_fields.specs.Extent.{lies_in};
ghost use Rattle.chi_history.specs.NumberLists.{has};
ghost use Rattle.chi_history.specs.HomeClauses.{Completes, IsServed, Retries};
ghost use Rattle.chi_rule.specs.Seats.{IsKnown};

use crate::rule::TableSeat;
use crate::steps::{exchange, look};
use crate::store::BookStore;
use chi_history::{Credit, Gate, NoGate, Served};
use chi_lanes::{Reply, apply};
use chi_rule::Purpose;
use std::alloc::Allocator;
use std::sync::Wait;

// One try: the reply, or nothing where another's exchange came between.
fn try_once<A: Allocator, G: Gate>(
    home: &BookStore<A>,
    seat: &mut TableSeat,
    purpose: &Purpose,
    gate: &mut G,
    try_no: u8,
) -> Option<Reply>
    requires own { seat.old.table_id ≡ home.now.table.shared.table_id }
    requires known { IsKnown home.now.values seat.old.me.0 }
    requires holds { has seat.old.me.0.held purpose.now.src ≡ true }
    requires fits { IsTrue (lies_in purpose.now.access.addr purpose.now.access.len home.now.values.region) }
    ensures own { (seat.new.table_id ≡ seat.old.table_id) × (seat.new.me.1 ≡ seat.old.me.1) }
    ensures known { IsKnown home.now.values seat.new.me.0 }
    ensures held { seat.new.me.0.held ≡ seat.old.me.0.held }
    ensures tried { MatchOption result
        (Retries home.now.values (has seat.old.me.0.held) seat.old.me.0.seen seat.new.me.0.seen purpose.now.access 1)
        (λ reply. Completes home.now.values (has seat.old.me.0.held) seat.old.me.0.seen seat.new.me.0.seen purpose.now.src purpose.now.access reply 0) }
{
    let image = home.values.image();
    let granule = purpose.access.granule(&home.values.region());
    let found = look(&home.table, seat, granule);
    gate.pause(try_no);
    let mask = image[granule];
    let (word, reply) = apply(found ^ mask, &purpose.access);
    let now = exchange(&home.table, seat, granule, found, word ^ mask, purpose);
    if now == found { Some(reply) } else { None }
}

// At most so many tries.
pub(crate) fn try_some<A: Allocator, G: Gate>(
    home: &BookStore<A>,
    seat: &mut TableSeat,
    purpose: &Purpose,
    gate: &mut G,
    attempts: u8,
) -> Served
    requires own { seat.old.table_id ≡ home.now.table.shared.table_id }
    requires known { IsKnown home.now.values seat.old.me.0 }
    requires holds { has seat.old.me.0.held purpose.now.src ≡ true }
    requires fits { IsTrue (lies_in purpose.now.access.addr purpose.now.access.len home.now.values.region) }
    requires some { 1 ≤ attempts }
    ensures own { (seat.new.table_id ≡ seat.old.table_id) × (seat.new.me.1 ≡ seat.old.me.1) }
    ensures known { IsKnown home.now.values seat.new.me.0 }
    ensures held { seat.new.me.0.held ≡ seat.old.me.0.held }
    ensures served { IsServed home.now.values attempts (has seat.old.me.0.held) seat.old.me.0.seen seat.new.me.0.seen purpose.now.src purpose.now.access result }
{
    'tries: for lost in 0..attempts {
        if let Some(reply) = try_once(home, seat, purpose, gate, lost + 1) {
            return Served::Done { reply, lost };
        }
    }
    Served::Retry {
        credit: Credit::issue(purpose.src),
        lost: attempts,
    }
}

// Tries until an exchange wins.
pub(crate) fn try_until_done<R: Wait, A: Allocator>(
    rt: &R,
    home: &BookStore<A>,
    seat: &mut TableSeat,
    purpose: &Purpose,
) -> Reply
    requires own { seat.old.table_id ≡ home.now.table.shared.table_id }
    requires known { IsKnown home.now.values seat.old.me.0 }
    requires holds { has seat.old.me.0.held purpose.now.src ≡ true }
    requires fits { IsTrue (lies_in purpose.now.access.addr purpose.now.access.len home.now.values.region) }
    ensures own { (seat.new.table_id ≡ seat.old.table_id) × (seat.new.me.1 ≡ seat.old.me.1) }
    ensures known { IsKnown home.now.values seat.new.me.0 }
    ensures held { seat.new.me.0.held ≡ seat.old.me.0.held }
    ensures done { Completes home.now.values (has seat.old.me.0.held) seat.old.me.0.seen seat.new.me.0.seen purpose.now.src purpose.now.access result 0 }
{
    let mut gate = NoGate;
    'tries: for _ in rt.forever() {
        if let Some(reply) = try_once(home, seat, purpose, &mut gate, 1) {
            return reply;
        }
    }
    unreachable!()
}
