//! The lock-free home.

ghost use Rattle.std.specs.Prelude.{◌≡◌, ◌≤◌};
ghost use Rattle.chi_history.specs.Openings.{IsOpening};

use crate::rule::BookTable;
use chi_rule::OpeningValues;
use std::alloc::{Allocator, Global};

/// A home whose memory is a row of words, one for each granule, that callers load and exchange.
///
/// Many threads may call it at once, each with a seat of its own. No call takes a lock.
#[derive(Drop)]
pub struct BookStore<A: Allocator = Global> {
    pub(crate) table: BookTable<A>,
    pub(crate) values: OpeningValues<A>,
    pub(crate) attempts: u8,
    ghost key_is: { table.shared.key ≡ values },
    ghost wide: { table.shared.table_id.words ≡ values.region.granules },
    ghost opening: { IsOpening values },
    ghost some_attempts: { 1 ≤ attempts },
}
