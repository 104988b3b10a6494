//! The operations of one granule that ended last, and how far they can be explained. Source: profile.
#![tactic(auto)]

mod ahead;
mod answers;
mod explained;
mod forgetting;
mod judge;
mod known_word;
mod later_makers;
mod legal;
mod reach;
mod reaching;
mod search;
mod settled;
mod settling;
mod shown;
mod standing;
mod suspects;
mod told;
mod until;
mod up_to_time;

pub use judge::Judge;
pub use reach::{Reach, Stop};
pub use settled::Settled;
pub use standing::Standing;
pub use until::happened_until;
