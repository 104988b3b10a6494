//! The cut of a split.

use crate::view::View;
use atomic_table::Split;
use std::marker::{Brand, PhantomData};

/// Whose number gets a seat of its own. It is picked where the cut is called.
pub trait SplitNumber {
    ghost use Rattle.std.specs.Prelude.{ℕ};

    ghost number: { ℕ };
}

impl SplitNumber for Brand {
    ghost number = { 0 };
}

/// The cut that gives one number a seat of its own.
pub struct SplitOff<Q> {
    of: PhantomData<Q>,
}

impl<Q: SplitNumber> Split<View> for SplitOff<Q> {
    ghost use Rattle.chi_rule.specs.Views.{alone, rest_of};

    ghost left = { λ v. rest_of Q.number v };

    ghost right = { λ v. alone Q.number v };
}
