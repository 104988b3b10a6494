//! The kinds of steps on the line that a caller chooses a value for. Each value is picked where the step is called.

use crate::rule::Words;
use atomic_table::Split;
use chi_rule::View;
use crossbeam_utils::rule::Outcome;
use std::marker::{Brand, PhantomData};

/// The opening that the first view is set to.
pub(crate) trait ChosenOpening {
    ghost use Rattle.chi_history.specs.declared.opening.Opening.{Opening};

    ghost opening: { Opening };
}

impl ChosenOpening for Brand {
    ghost use Rattle.chi_rule.specs.Views.{no_opening};

    ghost opening = { no_opening };
}

/// The cut that sets the first view to an opening: one part holds every number, and the other is spent.
pub(crate) struct OpeningCut<Q> {
    of: PhantomData<Q>,
}

impl<Q: ChosenOpening> Split<View> for OpeningCut<Q> {
    ghost use Rattle.std.specs.Prelude.{[]};
    ghost use Rattle.chi_rule.specs.Views.{all_below, gone, knower};

    ghost left = { λ v. knower Q.opening (all_below Q.opening.requesters) [] };

    ghost right = { λ v. gone };
}

/// What an exchange of the line is for, and the words that it expects.
pub(crate) trait ChosenExchange {
    ghost use Rattle.std.specs.Prelude.{ℕ, List};
    ghost use Rattle.chi_rule.specs.declared.purpose.Purpose.{Purpose};

    ghost purpose: { Purpose };

    ghost current: { List ℕ };
}

impl ChosenExchange for Brand {
    ghost use Rattle.std.specs.Prelude.{[], false};
    ghost use Rattle.chi_fields.specs.declared.kind.Kind.TheVariants.{Read};

    ghost purpose = { record { src = 0; access = record { kind = Read; addr = 0; len = 0; endian = false; enables = 0; lanes = [] } } };

    ghost current = { [] };
}

/// The exchange of the line for what the access makes of it.
pub(crate) struct LineExchange<Q> {
    of: PhantomData<Q>,
}

impl<Q: ChosenExchange> Outcome<Words, View> for LineExchange<Q> {
    ghost use Rattle.chi_rule.specs.StepFacts.{Tries};

    ghost then = { λ v x y w. Tries v Q.current Q.purpose.src Q.purpose.access x w };
}
