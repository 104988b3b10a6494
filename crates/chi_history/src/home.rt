//! The contract of a home.

use crate::credit::Credit;
use crate::gate::Gate;
use crate::served::Served;
use chi_fields::{Access, Region};
use chi_lanes::Reply;
use std::sync::Wait;

/// A home that executes the accesses of many requesters on the memory of its region.
///
/// Each call is made with a seat, which holds the numbers of some requesters. Contracts see a seat as the set
/// `held` of these numbers and the legal history `seen`; a seat is of the opening that it comes from.
pub trait Home {
    ghost use Rattle.std.specs.Prelude.{◌≡◌, ◌↔◌, ℕ, ◌<◌, ◌*◌, ◌+◌, Bool, true, List, length, slice_index, IsTrue};
    ghost use Rattle.chi_fields.specs.Extent.{lies_in};
    ghost use Rattle.chi_lanes.specs.Memory.{word};
    ghost use Rattle.chi_history.specs.declared.entry.Entry.{Entry};
    ghost use Rattle.chi_history.specs.declared.opening.Opening.{Opening};
    ghost use Rattle.chi_history.specs.NumberSets.{Held, Apart, below, only, union, without};
    ghost use Rattle.chi_history.specs.History.{IsLegal, end};
    ghost use Rattle.chi_history.specs.Openings.{IsOpening};
    ghost use Rattle.chi_history.specs.HomeClauses.{Completes, IsServed, Joins};

    /// What callers hold.
    type Seat: Drop + Send;

    /// The values of this home's opening.
    ghost opening: { Self → Opening };

    /// How many lost tries a request may have before it is answered by RetryAck; 0 where it never is.
    ghost limit: { Self → ℕ };

    /// The seat comes from this home's opening.
    ghost belongs: { Self → Self.Seat → Type 0 };

    /// The numbers that the seat holds.
    ghost held: { Self.Seat → Held };

    /// The history that the seat has seen.
    ghost seen: { Self.Seat → List Entry };

    /// The region that the home serves.
    fn region(&self) -> Region
        ensures { result ≡ (opening self.now).region };

    /// How many requesters there are, with the numbers from 0.
    fn requesters(&self) -> u8
        ensures { result ≡ (opening self.now).requesters };

    /// Whether the seat holds this number.
    fn holds(&self, seat: &Self::Seat, src: u8) -> bool
        ensures { result ≡ held seat.now src };

    /// Whether the seat holds every number of this home.
    fn holds_all(&self, seat: &Self::Seat) -> bool
        requires own { belongs self.now seat.now }
        ensures { IsTrue result ↔ (held seat.now ≡ below (opening self.now).requesters) };

    /// Serves a request of the requester `src`, or answers it by RetryAck.
    fn serve<R: Wait, G: Gate>(
        &self,
        rt: &R,
        seat: &mut Self::Seat,
        src: u8,
        access: &Access,
        gate: &mut G,
    ) -> Served
        requires own { belongs self.now seat.old }
        requires holds { held seat.old src ≡ true }
        requires fits { IsTrue (lies_in access.now.addr access.now.len (opening self.now).region) }
        ensures own { belongs self.now seat.new }
        ensures held { held seat.new ≡ held seat.old }
        ensures served { IsServed (opening self.now) (limit self.now) (held seat.old) (seen seat.old) (seen seat.new) src access.now result };

    /// Serves a request on a credit: it gets no RetryAck.
    fn serve_credited<R: Wait>(
        &self,
        rt: &R,
        seat: &mut Self::Seat,
        credit: Credit,
        access: &Access,
    ) -> Reply
        requires own { belongs self.now seat.old }
        requires holds { held seat.old credit ≡ true }
        requires fits { IsTrue (lies_in access.now.addr access.now.len (opening self.now).region) }
        ensures own { belongs self.now seat.new }
        ensures held { held seat.new ≡ held seat.old }
        ensures credited { Completes (opening self.now) (held seat.old) (seen seat.old) (seen seat.new) credit access.now result 0 };

    /// A seat of its own for the requester `src`.
    fn split<R: Wait>(&self, rt: &R, seat: &mut Self::Seat, src: u8) -> Self::Seat
        requires own { belongs self.now seat.old }
        requires holds { held seat.old src ≡ true }
        ensures own { belongs self.now seat.new × belongs self.now result }
        ensures rest { held seat.new ≡ without src (held seat.old) }
        ensures alone { held result ≡ only src }
        ensures seen { (seen seat.new ≡ seen seat.old) × (seen result ≡ seen seat.old) };

    /// Takes another seat back.
    fn rejoin<R: Wait>(&self, rt: &R, seat: &mut Self::Seat, other: Self::Seat)
        requires own { belongs self.now seat.old }
        requires other_own { belongs self.now other }
        ensures own { belongs self.now seat.new }
        ensures apart { Apart (held seat.old) (held other) }
        ensures held { held seat.new ≡ union (held seat.old) (held other) }
        ensures joined { Joins (held seat.old) (seen seat.old) (held other) (seen other) (seen seat.new) };

    /// The words of the memory at the end of what the seat has seen: a word for each granule.
    fn snapshot<R: Wait>(&self, rt: &R, seat: &mut Self::Seat, words: &mut [u64])
        requires own { belongs self.now seat.old }
        requires all { held seat.old ≡ below (opening self.now).requesters }
        requires room { length words.old ≡ (opening self.now).region.granules }
        ensures own { belongs self.now seat.new }
        ensures held { held seat.new ≡ held seat.old }
        ensures seen { seen seat.new ≡ seen seat.old }
        ensures shown { (g : ℕ) → g < (opening self.now).region.granules
            → slice_index words.new g ≡ word (end (opening self.now) (seen seat.new)) (opening self.now).region g };

    /// Gives a credit back. No seat and no history changes.
    fn return_credit(&self, credit: Credit) {
        credit.spend();
    }

    /// The opening's region is one, its image has a word for each granule, and its requesters are 1 to 8.
    ghost is_opening: { (home : Self) → IsOpening (opening home) };

    /// What a seat has seen is a legal history.
    ghost seen_is_legal: { (home : Self) (seat : Self.Seat) → belongs home seat → IsLegal (opening home) (seen seat) };

    /// The numbers that a seat holds are numbers of the home's requesters.
    ghost held_is_opened: { (home : Self) (seat : Self.Seat) → belongs home seat → (r : ℕ) → held seat r ≡ true → r < (opening home).requesters };
}
