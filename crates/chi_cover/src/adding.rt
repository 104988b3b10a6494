//! Bins added to counts.

ghost use Rattle.std.specs.Prelude.{[], ◌∷◌};
ghost use Rattle.chi_cover.specs.Added.{AreAdded};
ghost use Rattle.chi_cover.specs.Operations.{those};

use crate::bin::Bin;
use crate::number::number;

/// One more for a bin.
pub(crate) fn add_bin(counts: &mut [u64], bin: Bin)
    ensures { AreAdded (bin ∷ []) counts.old counts.new }
{
    let number = number(bin);
    if number < counts.len() {
        counts[number] = counts[number].saturating_add(1);
    }
}

/// One more for a bin, where there is one.
pub(crate) fn add_some(counts: &mut [u64], bin: Option<Bin>)
    ensures { AreAdded (those bin) counts.old counts.new }
{
    if let Some(bin) = bin {
        add_bin(counts, bin);
    }
}
