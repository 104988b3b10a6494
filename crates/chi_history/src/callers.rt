//! Callers of any home, which show what its clauses are enough for.

ghost use Rattle.std.specs.Prelude.{◌≡◌, ◌≢◌, ℕ, ◌<◌, true, IsTrue, [], ◌∷◌, ◌++◌, List, length, slice_index};
ghost use Rattle.chi_fields.specs.Extent.{lies_in};
ghost use Rattle.chi_lanes.specs.After.{answer};
ghost use Rattle.chi_lanes.specs.Memory.{word};
ghost use Rattle.chi_history.specs.declared.entry.Entry.{Entry};
ghost use Rattle.chi_history.specs.NumberSets.{below};
ghost use Rattle.chi_history.specs.History.{IsFreeOf, end, of};
ghost use Rattle.chi_history.specs.HomeClauses.{entry};

use crate::gate::NoGate;
use crate::home::Home;
use crate::served::Served;
use chi_fields::Access;
use chi_lanes::Reply;
use std::sync::Wait;

/// Serves a request with a seat that holds every number. RetryAck never comes, and the reply is the answer of
/// the memory at the end of what the seat had seen.
pub fn serve_alone<H: Home, R: Wait>(
    home: &H,
    rt: &R,
    seat: &mut H::Seat,
    src: u8,
    access: &Access,
) -> Reply
    requires own { H.belongs home.now seat.old }
    requires all { H.held seat.old ≡ below (H.opening home.now).requesters }
    requires known { src < (H.opening home.now).requesters }
    requires fits { IsTrue (lies_in access.now.addr access.now.len (H.opening home.now).region) }
    ensures own { H.belongs home.now seat.new }
    ensures held { H.held seat.new ≡ H.held seat.old }
    ensures reply { result ≡ answer access.now (end (H.opening home.now) (H.seen seat.old)) }
    ensures seen { H.seen seat.new ≡ H.seen seat.old ++ entry src access.now result ∷ [] }
{
    let served = home.serve(rt, seat, src, access, &mut NoGate);
    match served {
        Served::Done { reply, lost: _ } => reply,
        Served::Retry { credit, lost: _ } => {
            home.return_credit(credit);
            unreachable!()
        }
    }
}

/// Serves a request until it is done: where it is answered by RetryAck it is sent again on the credit.
pub fn serve_until_done<H: Home, R: Wait>(
    home: &H,
    rt: &R,
    seat: &mut H::Seat,
    src: u8,
    access: &Access,
) -> Reply
    requires own { H.belongs home.now seat.old }
    requires holds { H.held seat.old src ≡ true }
    requires fits { IsTrue (lies_in access.now.addr access.now.len (H.opening home.now).region) }
    ensures own { H.belongs home.now seat.new }
    ensures held { H.held seat.new ≡ H.held seat.old }
    ensures done { (mid : List Entry) × (H.seen seat.new ≡ (H.seen seat.old ++ mid) ++ entry src access.now result ∷ []) × IsFreeOf (H.held seat.old) mid }
{
    let answered = home.serve(rt, seat, src, access, &mut NoGate);
    match answered {
        Served::Done { reply, lost: _ } => reply,
        Served::Retry { credit, lost: _ } => home.serve_credited(rt, seat, credit, access),
    }
}

/// Splits a number off, serves a request with each of both seats, takes the seat back, and reads the memory:
/// the seat holds what it held, the history has both entries, and the words are those at its end.
pub fn serve_apart<H: Home, R: Wait>(
    home: &H,
    rt: &R,
    seat: &mut H::Seat,
    one: u8,
    one_access: &Access,
    other: u8,
    other_access: &Access,
    words: &mut [u64],
) -> (Reply, Reply)
    requires own { H.belongs home.now seat.old }
    requires all { H.held seat.old ≡ below (H.opening home.now).requesters }
    requires one_known { one < (H.opening home.now).requesters }
    requires other_known { other < (H.opening home.now).requesters }
    requires apart { one ≢ other }
    requires one_fits { IsTrue (lies_in one_access.now.addr one_access.now.len (H.opening home.now).region) }
    requires other_fits { IsTrue (lies_in other_access.now.addr other_access.now.len (H.opening home.now).region) }
    requires room { length words.old ≡ (H.opening home.now).region.granules }
    ensures own { H.belongs home.now seat.new }
    ensures held { H.held seat.new ≡ H.held seat.old }
    ensures both { (since : List Entry) × (H.seen seat.new ≡ H.seen seat.old ++ since)
        × (of since one ≡ entry one one_access.now result.0 ∷ []) × (of since other ≡ entry other other_access.now result.1 ∷ []) }
    ensures shown { (g : ℕ) → g < (H.opening home.now).region.granules
        → slice_index words.new g ≡ word (end (H.opening home.now) (H.seen seat.new)) (H.opening home.now).region g }
{
    let mut beside = home.split(rt, seat, one);
    let first = serve_until_done(home, rt, &mut beside, one, one_access);
    let second = serve_until_done(home, rt, seat, other, other_access);
    home.rejoin(rt, seat, beside);
    home.snapshot(rt, seat, words);
    (first, second)
}
