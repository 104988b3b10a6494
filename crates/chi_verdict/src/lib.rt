//! Whether a whole trace is explained: by which order, or in which granule and from which time on it is not; and what is said of a
//! granule that was not decided. Source: profile.
#![tactic(auto)]

mod doubt;
mod earlier;
mod first;
mod granule;
mod grouped;
mod grouping;
mod held;
mod merge_orders;
mod next_granule;
mod open;
mod to_the_end;
mod verdict;

pub use doubt::{Doubt, doubt_of};
pub use first::{Blame, First, first_unexplained};
pub use grouped::Grouped;
pub use held::words_held;
pub use open::most_open;
pub use to_the_end::legal_to_the_end;
pub use verdict::{Verdict, explain};
