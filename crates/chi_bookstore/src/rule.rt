//! The rule of the words and seats, and what each step on them shows.

ghost use Rattle.chi_bookstore.specs.TableSteps.{looked, read_one, served, settled};

use atomic_table::{Join, Play, Seat, Table, TableRule};
use chi_rule::{OpeningValues, Purpose, View};
use std::alloc::Allocator;

/// The words show the end of one history, and each seat has seen a prefix of it.
pub struct BookRule;

impl<A: Allocator> TableRule<Purpose, View, OpeningValues<A>> for BookRule {
    ghost use Rattle.chi_rule.specs.Rule.{Kept};
    ghost use Rattle.chi_rule.specs.Views.{all_below, knower};
    ghost use Rattle.std.specs.Prelude.{[]};

    ghost holds = { λ k s. Kept k.region.granules k s.words s.views };

    ghost first = { λ k. knower k (all_below k.requesters) [] };
}

/// The words. There are no slots: an exchange names its purpose to the rule.
pub type BookTable<A> = Table<Purpose, View, OpeningValues<A>, BookRule, A>;

/// What one caller knows of the words.
pub type TableSeat = Seat<Purpose, View>;

/// The load of a try: the seat has then seen the whole history.
pub struct Look;

impl Play<Purpose, View> for Look {
    ghost then = { looked };
}

/// The exchange of a try: one that wins adds the entry.
pub struct Serve;

impl Play<Purpose, View> for Serve {
    ghost then = { served };
}

/// A load of a snapshot.
pub struct ReadOne;

impl Play<Purpose, View> for ReadOne {
    ghost then = { read_one };
}

/// The load after two seats were made one.
pub struct Settle;

impl Play<Purpose, View> for Settle {
    ghost then = { settled };
}

/// Two seats become one.
pub struct Glue;

impl Join<View> for Glue {
    ghost use Rattle.chi_rule.specs.Views.{both, gone};

    ghost both = { both };

    ghost spent = { gone };
}
