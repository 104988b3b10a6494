//! The locked store, and its opening.

ghost use Rattle.std.specs.Prelude.{◌≡◌, ◌^◌, ◌<◌, IfErr, IfOk, length};
ghost use Rattle.chi_history.specs.Openings.{IsFirst, IsOpening, IsRequesterCount, opened};
ghost use Rattle.chi_lockstore.specs.LockFaults.{IsWithinLine, IsLockFault};

use crate::rule::{Cell, LINE_GRANULES};
use crate::seat::LockSeat;
use crate::steps::begin;
use crate::type_size::TypeSize;
use chi_fields::Region;
use chi_history::{Home, MOST_NUMBERS, Numbers, OpenFault};
use chi_rule::OpeningValues;
use std::alloc::{Allocator, Global};
use std::marker::Brand;
use std::mem::size_of_val;

/// A home whose memory is one cache line in a cell, each word as the exclusive-or with its word at the opening. An
/// access reads the line whole, and exchanges it for a changed one where no other came between; RetryAck never
/// answers it.
///
/// The line's memory is of any allocator. The store keeps that a value of the allocator is small, since the cell
/// has one in it.
pub struct LockStore<A: Allocator + TypeSize = Global> {
    pub(crate) cell: Cell<A>,
    pub(crate) values: OpeningValues<A>,
    ghost small: { A.bytes < 2 ^ 62 },
    ghost opening: { IsOpening values },
    ghost line: { IsWithinLine values.region.granules },
}

impl<A: Allocator + TypeSize + Drop> Drop for LockStore<A> {
    fn drop(self) {
        let LockStore { cell, values } = self;
        drop(cell);
        drop(values);
    }
}

impl<A: Allocator + Copy> LockStore<A> {
    /// A store of this region of at most `LINE_GRANULES` granules with 1 to `MOST_NUMBERS` requesters, and the
    /// seat that holds all their numbers. The image is the words of the memory at the opening, one for each
    /// granule. Memory for it and for the line is asked of `alloc`, and only where the requesters and the region
    /// are accepted.
    ///
    /// The faults, in order: `RequesterCount`, `NotOneLine`, `Memory`.
    ///
    /// ```
    /// let (store, seat) = LockStore::open(alloc, region, 8, &[0; 8])?;
    /// ```
    pub fn open(
        alloc: A,
        region: Region,
        requesters: u8,
        image: &[u64],
    ) -> Result<(LockStore<A>, LockSeat), OpenFault>
        requires { length image.now ≡ region.granules }
        ensures own { IfOk result (λ r. ⟦<LockStore<A> as Home>⟧.belongs r.0 r.1) }
        ensures first { IfOk result (λ r. IsFirst (⟦<LockStore<A> as Home>⟧.opening r.0) (⟦<LockStore<A> as Home>⟧.held r.1) (⟦<LockStore<A> as Home>⟧.seen r.1)) }
        ensures opening { IfOk result (λ r. ⟦<LockStore<A> as Home>⟧.opening r.0 ≡ opened region requesters image.now) }
        ensures limit { IfOk result (λ r. ⟦<LockStore<A> as Home>⟧.limit r.0 ≡ 0) }
        ensures counts { IfOk result (λ _. IsRequesterCount requesters × IsWithinLine region.granules) }
        ensures refused { IfErr result (IsLockFault region.granules requesters) }
    {
        if requesters < 1 || requesters > MOST_NUMBERS {
            return Err(OpenFault::RequesterCount);
        }
        if usize::from(region.granules()) > LINE_GRANULES {
            return Err(OpenFault::NotOneLine);
        }
        // Never so, and known at compile time. By it the proof knows that the cell fits in memory.
        if size_of_val(&alloc) >= 1 << 62 {
            return Err(OpenFault::Memory);
        }
        let Ok(values) = OpeningValues::new(alloc, region, requesters, image) else {
            return Err(OpenFault::Memory);
        };
        let Ok((cell, pass)) = begin::<Brand, A>(alloc, &values) else {
            return Err(OpenFault::Memory);
        };
        let numbers = Numbers::all(requesters);
        Ok((LockStore { cell, values }, LockSeat { pass, numbers }))
    }
}
