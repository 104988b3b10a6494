//! Which of the operations from the first on are settled.

ghost use Rattle.std.specs.Prelude.{◌≡◌, ℕ, ◌+◌, ◌*◌, ◌%◌, ◌<◌, ◌==◌, ◌||◌, ◌∷◌, [], slice_index, OnOk};
ghost use Rattle.chi_search.specs.Positions.{has_bit, words_of};

use std::alloc::AllocError;

/// A set of numbers. Bit k of `near` stands for the number k, and bit k of word i of `beyond` for 64 (i + 1) + k.
#[derive(Drop)]
pub(crate) struct Settled {
    pub near: u64,
    pub beyond: Vec<u64>,
}

// One of its words, or 0 past them.
fn word_of(settled: &Settled, word: usize) -> u64
    ensures { result ≡ slice_index (words_of settled.now) word }
{
    if word == 0 {
        return settled.near;
    }
    match settled.beyond.get(word - 1) {
        Some(bits) => *bits,
        None => 0,
    }
}

/// Whether the number is in the set.
pub(crate) fn has(settled: &Settled, number: usize) -> bool
    ensures { result ≡ has_bit (words_of settled.now) number }
{
    (word_of(settled, number / 64) >> (number % 64)) & 1 == 1
}

// The 64 bits from bit `by % 64` of a word on.
fn bits_from(settled: &Settled, word: usize, by: usize) -> u64
    ensures { (k : ℕ) → k < 64 → has_bit (result ∷ []) k ≡ has_bit (words_of settled.now) (64 * word + by % 64 + k) }
{
    let low = word_of(settled, word);
    let by = by % 64;
    if by == 0 {
        return low;
    }
    match settled.beyond.get(word) {
        Some(next) => (low >> by) | (*next << (64 - by)),
        None => low >> by,
    }
}

/// Makes the second set that of the numbers of the first, each less by so many, but for those below.
pub(crate) fn shift(settled: &Settled, by: usize, to: &mut Settled) -> Result<(), AllocError>
    ensures { OnOk result ((k : ℕ) → has_bit (words_of to.new) k ≡ has_bit (words_of settled.now) (by + k)) }
{
    to.near = bits_from(settled, by / 64, by);
    to.beyond.clear();
    for word in 0..settled.beyond.len() {
        to.beyond.push(bits_from(settled, by / 64 + 1 + word, by))?;
    }
    Ok(())
}

/// Puts a number into the set.
pub(crate) fn put(settled: &mut Settled, number: usize) -> Result<(), AllocError>
    ensures { OnOk result ((k : ℕ) → has_bit (words_of settled.new) k ≡ (has_bit (words_of settled.old) k || (k == number))) }
{
    if number < 64 {
        settled.near |= 1 << number;
        return Ok(());
    }
    let word = number / 64 - 1;
    while settled.beyond.len() <= word {
        settled.beyond.push(0)?;
    }
    settled.beyond[word] |= 1 << (number % 64);
    Ok(())
}

/// Takes off the last words while they are 0, so that equal sets have equal words.
pub(crate) fn trim(settled: &mut Settled)
    ensures { (k : ℕ) → has_bit (words_of settled.new) k ≡ has_bit (words_of settled.old) k }
{
    while let Some(0) = settled.beyond.last() {
        settled.beyond.pop();
    }
}
