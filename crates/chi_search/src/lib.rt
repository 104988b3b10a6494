//! The search of one granule: an order that explains its operations, and the words that they can leave. Source: profile.
#![tactic(auto)]

mod absorbing;
mod after;
mod along;
mod at_once;
mod at_word;
mod chains;
mod choice;
mod commuting;
mod counting;
mod earliest;
mod effect;
mod equal;
mod frontier;
mod layer;
mod makers;
mod making;
mod moving;
mod narrow;
mod narrowest;
mod only_word;
mod order;
mod outcomes;
mod part;
mod parts;
mod passing;
mod path;
mod problem;
mod progress;
mod rounds;
mod searchable;
mod searching;
mod settled;
mod state;
mod states;
mod wanted;
mod wide;
mod words;

pub use at_word::step;
pub use frontier::Frontier;
pub use order::{Found, order_of};
pub use progress::{NoProgress, Progress};
pub use searchable::are_searchable;
pub use words::{Words, words_of};
