//! How often each kind of request is drawn.

ghost use Rattle.std.specs.Prelude.{◌≡◌, ◌<◌, ◌≤◌, IfOk, IfSome};
ghost use Rattle.std.specs.List.{position};
ghost use Rattle.std.specs.Str.{bytes_eq};
ghost use Rattle.chi_stimulus.specs.Named.{entry_of, kinds, mix_of};
ghost use Rattle.chi_stimulus.specs.Weights.{HasSmallWeights};

use rand_core::Rng;
use thiserror::Error;

/// The kinds, in the order of their weights.
pub(crate) const KINDS: [&str; 6] = ["read", "write", "store", "load", "swap", "compare"];

/// Why a text names no weights: it is not entries KIND=WEIGHT with commas between them, or all weights are 0.
#[derive(Clone, Copy, Debug, PartialEq, Eq, Error)]
#[error("mix is not KIND=WEIGHT,.. of read, write, store, load, swap and compare, with weights up to 1000 that are not all 0")]
pub struct MixFault;

/// The greatest weight.
const MOST_WEIGHT: u16 = 1000;

/// How often each kind of request is drawn: in proportion to its weight.
#[derive(Clone, Copy, Debug, PartialEq, Eq)]
pub struct Mix {
    weights: [u16; 6],
}

/// An entry KIND=WEIGHT: the place of its kind in `KINDS`, and its weight.
struct Entry {
    kind: usize,
    weight: u16,
}

/// The place of a kind in `KINDS`.
fn kind_named(name: &str) -> Option<usize>
    ensures kind { result ≡ position (bytes_eq name.now) kinds }
    ensures within { IfSome result (λ kind. kind < 6) }
{
    KINDS.iter().position(|kind| name == *kind)
}

/// The entry that a part of a text is.
fn entry_in(part: &str) -> Option<Entry>
    ensures entry { result ≡ entry_of part.now }
    ensures kind { IfSome result (λ entry. entry.kind < 6) }
    ensures weight { IfSome result (λ entry. entry.weight ≤ 1000) }
{
    let (name, weight) = part.split_once('=')?;
    let kind = kind_named(name)?;
    let weight: u16 = weight.parse().ok()?;
    if weight > MOST_WEIGHT {
        return None;
    }
    Some(Entry { kind, weight })
}

impl Mix {
    /// The weights that a text names, as `load=3,store=2`. An entry is KIND=WEIGHT, with a weight of 0 to 1000 that may
    /// follow a `+`. Of a kind the last entry counts; one that is not named has the weight 0. The text is refused where a part
    /// between commas is no entry, or where all weights are 0.
    ///
    /// ```
    /// let locks = Mix::named("compare=4,swap=1,read=1")?;
    /// ```
    pub fn named(text: &str) -> Result<Mix, MixFault>
        ensures named { result ≡ mix_of text.now }
        ensures small { IfOk result HasSmallWeights }
    {
        let mut weights = [0; 6];
        'entries: for part in text.split(',') {
            let Entry { kind, weight } = entry_in(part).ok_or(MixFault)?;
            weights[kind] = weight;
        }
        if weights == [0; 6] {
            return Err(MixFault);
        }
        Ok(Mix { weights })
    }

    /// All weights together.
    fn total(&self) -> u32 {
        let [read, write, store, load, swap, compare] = self.weights;
        let reads = u32::from(read) + u32::from(load) + u32::from(swap) + u32::from(compare);
        reads + u32::from(write) + u32::from(store)
    }

    /// The place in `KINDS` of a kind by chance.
    pub(crate) fn draw<R: Rng>(&self, rng: &mut R) -> usize
        ensures { result < 6 }
    {
        let mut left = rng.next_u32() % self.total().max(1);
        'kinds: for kind in 0..5 {
            let weight = u32::from(self.weights[kind]);
            if left < weight {
                return kind;
            }
            left -= weight;
        }
        5
    }
}
