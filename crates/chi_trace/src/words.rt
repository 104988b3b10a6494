//! Words that are told of granules.

ghost use Rattle.std.specs.Prelude.{◌≡◌, ℕ, [], None, IfSome, IfOk};
ghost use Rattle.std.specs.BTreeMap.{get};
ghost use Rattle.std.specs.Ordering.{nat_cmp};
ghost use Rattle.chi_trace.specs.Words.{AreInOrder, AreWords, find_word, word_or_zero};

use std::alloc::{AllocError, Global};
use std::collections::BTreeMap;
use std::marker::Model;

/// The word of a granule: byte `k` of it is its bits `8k` to `8k + 7`. `granule` is the number of the granule, counted from
/// address 0: its address divided by 8.
#[derive(Clone, Copy, Debug)]
pub struct GranuleWord {
    pub granule: u64,
    pub word: u64,
}

/// The words of some granules, in the order of the granules, each told once.
#[derive(Debug, Drop)]
pub struct GranuleWords {
    words: Vec<GranuleWord>,
}

impl Model for GranuleWords {
    ghost use Rattle.std.specs.Prelude.{List};
    ghost use Rattle.chi_trace.specs.Words.{AreInOrder, AreWords};
    ghost use Rattle.chi_trace.specs.declared.words.GranuleWord.{GranuleWord};

    ghost Value = { List GranuleWord };

    ghost view = { λ w. w.words.items };

    ghost invariant = { λ w. AreInOrder w.words.items × AreWords w.words.items };
}

impl GranuleWords {
    /// No word of any granule.
    ///
    /// ```
    /// let final_words = GranuleWords::none(alloc);
    /// ```
    pub fn none(alloc: Global) -> GranuleWords
        ensures { result ≡ [] }
    {
        GranuleWords {
            words: Vec::new(alloc),
        }
    }

    /// These words, where each granule comes before those after it.
    ///
    /// ```
    /// let opening = GranuleWords::new(words)?;
    /// ```
    pub fn new(words: Vec<GranuleWord>) -> Option<GranuleWords>
        ensures some { IfSome result (λ told. told ≡ words.items) }
        ensures none { result ≡ None → AreInOrder words.items → ⊥ }
    {
        for place in 0..words.len() {
            // That a word has eight bytes is known here once it is read.
            let _word = words[place].word;
            if place > 0 && words[place].granule <= words[place - 1].granule {
                return None;
            }
        }
        Some(GranuleWords { words })
    }

    /// The words of a map from granules.
    ///
    /// ```
    /// let opening = GranuleWords::of_map(alloc, &words)?;
    /// ```
    pub fn of_map(alloc: Global, map: &BTreeMap<u64, u64>) -> Result<GranuleWords, AllocError>
        ensures { IfOk result (λ words. (g : ℕ) → find_word words g ≡ get nat_cmp map.now g) }
    {
        let mut words = Vec::with_capacity(alloc, map.len())?;
        for (granule, word) in map {
            words.push(GranuleWord {
                granule: *granule,
                word: *word,
            })?;
        }
        Ok(GranuleWords { words })
    }

    /// The words, in the order of the granules.
    ///
    /// ```
    /// for told in opening.as_slice() {
    ///     show(told.granule * 8, told.word);
    /// }
    /// ```
    pub fn as_slice(&self) -> &[GranuleWord]
        ensures words { result.now ≡ self.now }
        ensures in_order { AreInOrder self.now }
        ensures each { AreWords self.now }
    {
        self.words.as_slice()
    }

    /// The word that is told of a granule, where one is.
    ///
    /// ```
    /// let word = final_words.get(0x1000 / 8);
    /// ```
    pub fn get(&self, granule: u64) -> Option<u64>
        ensures { result ≡ find_word self.now granule }
    {
        match self
            .words
            .binary_search_by_key(&granule, |told| told.granule)
        {
            Ok(place) => Some(self.words[place].word),
            Err(_) => None,
        }
    }

    /// The same, and 0 where none is.
    ///
    /// ```
    /// let word = trace.opening().word(0x1000 / 8);
    /// ```
    pub fn word(&self, granule: u64) -> u64
        ensures { result ≡ word_or_zero self.now granule }
    {
        self.get(granule).unwrap_or(0)
    }

    /// The same words once more.
    pub(crate) fn copy(&self, alloc: Global) -> Result<GranuleWords, AllocError>
        ensures { IfOk result (λ words. words ≡ self.now) }
    {
        let mut words = Vec::with_capacity(alloc, self.words.len())?;
        for told in &self.words {
            words.push(*told)?;
        }
        Ok(GranuleWords { words })
    }
}
