//! The states of a set, and where they stand by their hashes.

ghost use Rattle.std.specs.Prelude.{◌≡◌, []};

use std::alloc::{AllocError, Global};

/// Lists of places, one for each bucket. `newest` has the last place of each bucket, and `older` for each place the one
/// before it in its bucket. A number past the places stands for none.
#[derive(Drop)]
pub(crate) struct Chains {
    newest: Vec<u32>,
    older: Vec<u32>,
}

/// The states of a set, and where they stand.
#[derive(Drop)]
pub(crate) struct Chained<S> {
    pub states: Vec<S>,
    pub chains: Chains,
}

const FEWEST_BUCKETS: usize = 64;

// So many buckets, all empty.
fn with_buckets(alloc: Global, buckets: usize) -> Result<Chains, AllocError> {
    Ok(Chains {
        newest: vec![in alloc; u32::MAX; buckets]?,
        older: Vec::new(alloc),
    })
}

/// The empty set.
pub(crate) fn none_chained<S>(alloc: Global) -> Chained<S>
    ensures { result.states.items ≡ [] }
{
    Chained {
        states: Vec::new(alloc),
        chains: Chains {
            newest: Vec::new(alloc),
            older: Vec::new(alloc),
        },
    }
}

// The bucket of a hash.
fn bucket_of(chains: &Chains, hash: u64) -> usize {
    match chains.newest.len() {
        0 => 0,
        buckets => hash as usize & (buckets - 1),
    }
}

/// The place that came last into the bucket of a hash.
pub(crate) fn newest(chains: &Chains, hash: u64) -> Option<usize> {
    let place = chains.newest.get(bucket_of(chains, hash))?;
    Some(*place as usize)
}

/// The place that came before this one into its bucket.
pub(crate) fn older(chains: &Chains, place: usize) -> Option<usize> {
    let place = chains.older.get(place)?;
    Some(*place as usize)
}

/// Whether there are more than two places a bucket.
pub(crate) fn is_full(chains: &Chains) -> bool {
    chains.older.len() / 2 >= chains.newest.len()
}

/// Twice as many buckets, all empty.
pub(crate) fn wider(alloc: Global, chains: &Chains) -> Result<Chains, AllocError> {
    with_buckets(
        alloc,
        chains.newest.len().saturating_mul(2).max(FEWEST_BUCKETS),
    )
}

/// One place more, for a state of this hash.
pub(crate) fn link(chains: &mut Chains, hash: u64) -> Result<(), AllocError> {
    let place = chains.older.len().min(u32::MAX as usize) as u32;
    let bucket = bucket_of(chains, hash);
    let mut before = u32::MAX;
    if let Some(newest) = chains.newest.get_mut(bucket) {
        before = *newest;
        *newest = place;
    }
    chains.older.push(before)?;
    Ok(())
}
