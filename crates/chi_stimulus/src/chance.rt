//! Numbers by chance.

use rand::RngExt;
use rand_core::Rng;

/// Whether something that happens in so many of a hundred cases does.
pub(crate) fn happens<R: Rng>(rng: &mut R, percent: u8) -> bool {
    rng.random_range(0u8..100) < percent
}

/// The bytes of a data packet.
pub(crate) fn packet<R: Rng>(rng: &mut R) -> u128 {
    let low = u128::from(rng.next_u64());
    let high = u128::from(rng.next_u64());
    high << 64 | low
}
