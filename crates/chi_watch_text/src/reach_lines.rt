//! The lines of how far a granule's operations can be explained.

ghost use Rattle.std.specs.Prelude.{◌≡◌, ◌++◌, OnOk};
ghost use Rattle.chi_watch_text.specs.ReachTexts.{reach_text, stop_lines};

use chi_answer::{add_stop, add_words_at_end};
use chi_excerpt::{add_excerpt, add_order, add_writers};
use chi_judge::{Reach, Stop};
use std::alloc::{AllocError, Global};

/// The lines of where they stop being explained.
fn add_stop_lines(alloc: Global, to: &mut Vec<u8>, stop: &Stop) -> Result<(), AllocError>
    ensures { OnOk result (to.new.items ≡ to.old.items ++ stop_lines stop.now) }
{
    add_stop(to, stop, None)?;
    add_excerpt(alloc, to, "line", stop)?;
    add_order(
        to,
        " in an order that ends with lines",
        stop.time,
        &stop.order,
    )?;
    add_writers(alloc, to, "line", stop, &stop.order)
}

/// The lines of how far a granule's operations can be explained, of which this word was told at the end.
pub(crate) fn add_reach(
    alloc: Global,
    to: &mut Vec<u8>,
    final_word: Option<u64>,
    reach: &Reach,
) -> Result<(), AllocError>
    ensures { OnOk result (to.new.items ≡ to.old.items ++ reach_text final_word reach.now) }
{
    match reach {
        Reach::Whole(words) => add_words_at_end(to, final_word, words),
        Reach::Stops(stop) => add_stop_lines(alloc, to, stop),
        Reach::Undecided => Ok(()),
    }
}
