//! Granules that are watched while events come. Source: profile.
#![tactic(auto)]

mod admitting;
mod answering;
mod counts;
mod ended;
mod ending;
mod fault;
mod followed;
mod granules;
mod judge_all;
mod kept;
mod reaching;
mod recording;
mod settling;
mod telling;
mod undecided;
mod update_granules;
mod watch;
mod words_told;

pub use counts::Counts;
pub use ending::{Ending, FoundAtEnd};
pub use fault::WatchFault;
pub use reaching::FoundReach;
pub use undecided::UndecidedAtEnd;
pub use watch::Watch;
pub use words_told::write_at;
