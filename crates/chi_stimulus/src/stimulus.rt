//! What a script by chance is to be.

use crate::mix::Mix;
use chi_fields::Region;

/// What a script by chance is to be.
///
/// - `requests` is how many it has: 4,096 where it says more.
/// - `seed` is what everything is drawn from: the same one gives the same script on every machine.
/// - `region` is the memory. With `image` it opens with bytes by chance, and else with zeros.
/// - `requesters` is how many send: the numbers from 0 on, at least one and at most eight.
/// - `refused` of a hundred requests are refused, for each reason in turn.
/// - `hot` of a hundred are of the region's first granule, and the others of any.
/// - `mix` says how often each kind is drawn.
#[derive(Clone, Copy, Debug)]
pub struct Stimulus {
    pub requests: u16,
    pub seed: u64,
    pub region: Region,
    pub image: bool,
    pub requesters: u8,
    pub refused: u8,
    pub hot: u8,
    pub mix: Mix,
}
