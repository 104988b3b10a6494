//! The cell of the cache line, its rule, and what looks at it show.

use atomic_table::{Join, Split};
use chi_rule::View;
use crossbeam_utils::atomic::seq_cell::{Pass, RuledSeqCell};
use crossbeam_utils::rule::{Outcome, Protocol};

/// How many granules a line has: their words are the 64 bytes that a region's base is a multiple of.
pub const LINE_GRANULES: usize = 8;

/// The cache line: the words of a region's granules, and zeros after them.
pub(crate) type Words = [u64; LINE_GRANULES];

/// The cell that has the line.
pub(crate) type Cell<A> = RuledSeqCell<Words, View, LineRule, LINE_GRANULES, A>;

/// What a seat has to step on the line.
pub(crate) type LinePass = Pass<Words, View>;

/// The words show the end of one legal history, and what each seat has seen is a prefix of it.
pub struct LineRule;

impl Protocol<Words, View> for LineRule {
    ghost use Rattle.chi_rule.specs.Rule.{Ruled};
    ghost use Rattle.chi_rule.specs.Views.{newcomer};

    ghost holds = { λ words views. Ruled 8 words views };

    ghost first = { newcomer };
}

/// A look at the words, for a snapshot or before a try.
pub(crate) struct Look;

impl Outcome<Words, View> for Look {
    ghost use Rattle.chi_rule.specs.StepFacts.{Reads};

    ghost then = { λ v x y w. Reads v x w };
}

/// The look after two passes became one.
pub(crate) struct Settle;

impl Outcome<Words, View> for Settle {
    ghost use Rattle.chi_rule.specs.StepFacts.{Settles};

    ghost then = { λ v x y w. Settles v w };
}

/// A pass goes whole into a new one, and two become one.
pub(crate) struct Whole;

impl Split<View> for Whole {
    ghost use Rattle.chi_rule.specs.Views.{gone};

    ghost left = { λ v. gone };

    ghost right = { λ v. v };
}

impl Join<View> for Whole {
    ghost use Rattle.chi_rule.specs.Views.{both, gone};

    ghost both = { both };

    ghost spent = { gone };
}
