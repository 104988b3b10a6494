//! Patterns of names: `*` stands for any characters.

ghost use Rattle.std.specs.Prelude.{◌≡◌, IfOk};
ghost use Rattle.chi_cover.specs.Names.{bin_name};
ghost use Rattle.chi_cover.specs.Plan.{bins_fitting, fits, is_starred};

use crate::bin::Bin;
use crate::names::add_bin_name;
use crate::traffic_group::all_bins;
use std::alloc::{AllocError, Global};

/// The character that stands for any others, or for none.
const STAR: u8 = b'*';

/// Whether a pattern begins with a star.
fn is_starred(pattern: &[u8]) -> bool
    ensures { result ≡ is_starred pattern.now }
{
    match pattern.first() {
        Some(first) => *first == STAR,
        None => false,
    }
}

/// Whether a name fits a pattern. Of stars in a row all but the last are left out, since the time would grow with each.
#[tactic(auto, unfolding(crate::specs::Plan::fits))]
fn fits(pattern: &[u8], name: &[u8]) -> bool
    ensures { result ≡ fits pattern.now name.now }
{
    let Some((first, others)) = pattern.split_first() else {
        return name.is_empty();
    };
    if *first == STAR && is_starred(others) {
        return fits(others, name);
    }
    let Some((letter, rest)) = name.split_first() else {
        return *first == STAR && fits(others, name);
    };
    if *first == STAR {
        fits(others, name) || fits(pattern, rest)
    } else {
        *first == *letter && fits(others, rest)
    }
}

/// Whether the name of a bin fits a pattern.
pub(crate) fn bin_fits(alloc: Global, pattern: &[u8], bin: Bin) -> Result<bool, AllocError>
    ensures { IfOk result (λ answer. answer ≡ fits pattern.now (bin_name bin)) }
{
    let mut name = Vec::new(alloc);
    add_bin_name(&mut name, bin)?;
    Ok(fits(pattern, &name))
}

/// How many bins have a name that fits a pattern, in which each `*` stands for any characters or for none, and each other character
/// for itself. The names are those of the lines `missing` of a table.
///
/// ```
/// let count = bins_fitting(alloc, b"ReadNoSnp, big-endian, *")?; // 30
/// ```
pub fn bins_fitting(alloc: Global, pattern: &[u8]) -> Result<usize, AllocError>
    ensures { IfOk result (λ count. count ≡ bins_fitting pattern.now) }
{
    let mut count = 0;
    for bin in &all_bins(alloc)? {
        if bin_fits(alloc, pattern, *bin)? {
            count += 1;
        }
    }
    Ok(count)
}
