//! When the outstanding requests of each granule were taken.

ghost use Rattle.std.specs.Prelude.{◌≡◌, ℕ, ◌<◌, ◌≤◌, ◌==◌, ◌++◌, [], ◌∷◌, All, OnErr, OnOk, cond, filter, length, nat_lt, not};
ghost use Rattle.chi_events.specs.Requests.{starts_at};

use std::alloc::{AllocError, Global};
use std::collections::HashMap;

/// The number of an outstanding request, and when it was taken.
#[derive(Clone, Copy, Debug)]
pub struct Start {
    pub id: u64,
    pub time: u64,
}

/// The same of the outstanding requests of each granule, by the granule's number.
pub(crate) type Starts = HashMap<u64, Vec<Start>>;

/// Adds a request of a granule.
pub(crate) fn add_start(
    alloc: Global,
    starts: &mut Starts,
    granule: u64,
    start: Start,
) -> Result<(), AllocError>
    ensures added { OnOk result ((g : ℕ) → starts_at starts.new g ≡ starts_at starts.old g ++ cond (granule == g) (start ∷ []) []) }
    ensures failed { OnErr result ((g : ℕ) → starts_at starts.new g ≡ starts_at starts.old g) }
{
    if let Some(of_granule) = starts.get_mut(&granule) {
        of_granule.push(start)?;
        return Ok(());
    }
    let mut of_granule = Vec::new(alloc);
    of_granule.push(start)?;
    starts.insert(granule, of_granule)?;
    Ok(())
}

/// Takes out the request of a granule that has a number.
pub(crate) fn remove_start(starts: &mut Starts, granule: u64, id: u64)
    ensures { (g : ℕ) → starts_at starts.new g ≡ cond (granule == g) (filter (λ start. not (start.id == id)) (starts_at starts.old g)) (starts_at starts.old g) }
{
    let Some(of_granule) = starts.get_mut(&granule) else {
        return;
    };
    of_granule.retain(|start| start.id != id);
    if of_granule.is_empty() {
        starts.remove(&granule);
    }
}

/// Whether a request of the granule is there.
pub(crate) fn has_start(starts: &Starts, granule: u64) -> bool
    ensures { result ≡ nat_lt 0 (length (starts_at starts.now granule)) }
{
    match starts.get(&granule) {
        Some(of_granule) => !of_granule.is_empty(),
        None => false,
    }
}

/// A time at or before each of these, and at or before this one.
fn least_time(starts: &[Start], time: u64) -> u64
    ensures time { result ≤ time }
    ensures starts { All (λ start. result ≤ start.time) starts.now }
{
    let mut least = time;
    for start in starts {
        least = least.min(start.time);
    }
    least
}

/// A time at or before which each request of the granule was taken, and at or before this one.
pub(crate) fn earliest_start(starts: &Starts, granule: u64, time: u64) -> u64
    ensures time { result ≤ time }
    ensures starts { All (λ start. result ≤ start.time) (starts_at starts.now granule) }
{
    match starts.get(&granule) {
        Some(of_granule) => least_time(of_granule, time),
        None => time,
    }
}
