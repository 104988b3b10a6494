//! The locked store as a home.

use crate::seat::LockSeat;
use crate::service::complete;
use crate::steps::{give, look, take_in};
use crate::store::LockStore;
use chi_fields::{Access, Region};
use chi_history::{Credit, Gate, Home, Numbers, Served};
use chi_lanes::Reply;
use chi_rule::Purpose;
use std::alloc::Allocator;
use std::marker::Brand;
use std::sync::Wait;

impl<A: Allocator> Home for LockStore<A> {
    ghost use Rattle.std.specs.Prelude.{◌≡◌};
    ghost use Rattle.chi_history.specs.NumberLists.{has};
    ghost use Rattle.chi_rule.specs.Seats.{IsSeat};
    ghost use Rattle.crossbeam_utils.specs.Seq.{cell_view};

    type Seat = LockSeat;

    ghost opening = { λ h. h.values };

    ghost limit = { λ _. 0 };

    ghost belongs = { λ h s. (s.pass.table_id ≡ h.cell.table.shared.table_id) × IsSeat h.values s.numbers (cell_view s.pass) };

    ghost held = { λ s. has s.numbers };

    ghost seen = { λ s. (cell_view s.pass).seen };

    fn region(&self) -> Region {
        self.values.region()
    }

    fn requesters(&self) -> u8 {
        self.values.requesters()
    }

    fn holds(&self, seat: &LockSeat, src: u8) -> bool {
        seat.numbers.has(src)
    }

    fn holds_all(&self, seat: &LockSeat) -> bool {
        seat.numbers.has_all(self.values.requesters())
    }

    fn serve<R: Wait, G: Gate>(
        &self,
        rt: &R,
        seat: &mut LockSeat,
        src: u8,
        access: &Access,
        gate: &mut G,
    ) -> Served {
        gate.pause(1);
        let purpose = Purpose {
            src,
            access: *access,
        };
        let reply = complete(&self.cell, &self.values, rt, &mut seat.pass, &purpose);
        Served::Done { reply, lost: 0 }
    }

    fn serve_credited<R: Wait>(
        &self,
        rt: &R,
        seat: &mut LockSeat,
        credit: Credit,
        access: &Access,
    ) -> Reply {
        let purpose = Purpose {
            src: credit.spend(),
            access: *access,
        };
        complete(&self.cell, &self.values, rt, &mut seat.pass, &purpose)
    }

    fn split<R: Wait>(&self, _rt: &R, seat: &mut LockSeat, src: u8) -> LockSeat {
        let pass = give::<Brand, A>(&self.cell, &mut seat.pass, src);
        let alone = Numbers::only(src);
        seat.numbers.remove(src);
        LockSeat {
            pass,
            numbers: alone,
        }
    }

    fn rejoin<R: Wait>(&self, rt: &R, seat: &mut LockSeat, other: LockSeat) {
        let LockSeat { pass, numbers } = other;
        seat.numbers.merge(numbers);
        take_in(&self.cell, rt, &mut seat.pass, pass);
    }

    fn snapshot<R: Wait>(&self, rt: &R, seat: &mut LockSeat, words: &mut [u64]) {
        let line = look(&self.cell, rt, &mut seat.pass);
        let image = self.values.image();
        for granule in 0..words.len() {
            words[granule] = line[granule] ^ image[granule];
        }
    }

    ghost is_opening = { λ h. h.opening };

    ghost seen_is_legal = { λ h s b. b.1.known.legal };

    ghost held_is_opened = { λ h s b. b.1.opened };
}
