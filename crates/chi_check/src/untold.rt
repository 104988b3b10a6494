//! A granule that is asked for, of which nothing is told.

ghost use Rattle.std.specs.Prelude.{◌≡◌, is_some};
ghost use Rattle.chi_check.specs.Check.{has_operation, tells_of, untold};
ghost use Rattle.chi_trace.specs.Words.{find_word};

use chi_reading::Recorded;
use chi_trace::{GranuleWords, Operation};

// Whether an operation is of a granule.
fn has_operation(ops: &[Operation], granule: u64) -> bool
    ensures { result ≡ has_operation granule ops.now }
{
    ops.iter().any(|op| op.granule() == granule)
}

// Whether a word is of a granule.
fn has_word(words: &GranuleWords, granule: u64) -> bool
    ensures { result ≡ is_some (find_word words.now granule) }
{
    words.get(granule).is_some()
}

// Whether an operation or a word of a granule is told.
fn tells_of(recorded: &Recorded, granule: u64) -> bool
    ensures { result ≡ tells_of granule recorded.now }
{
    has_operation(recorded.trace().operations(), granule)
        || has_word(recorded.trace().opening(), granule)
        || has_word(recorded.final_words(), granule)
}

/// The address that is asked for, where nothing is told of its granule.
pub(crate) fn untold(recorded: &Recorded, addr: Option<u64>) -> Option<u64>
    ensures { result ≡ untold addr recorded.now }
{
    let addr = addr?;
    if tells_of(recorded, addr / 8) {
        None
    } else {
        Some(addr)
    }
}
