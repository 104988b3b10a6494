//! A granule of lines that are watched as JSON: how far it can be explained.

ghost use Rattle.std.specs.Prelude.{◌≡◌, ◌++◌, OnOk};
ghost use Rattle.chi_page.specs.Reaches.{doubt_json, found_json, line_json, reach_members};

use crate::stopped::{
    add_before, add_cut_short, add_stop, add_undecided, add_unexplained, add_words_at_end,
};
use chi_judge::Reach;
use chi_search::Words;
use chi_text::Part::{Number, Text};
use chi_text::add_parts;
use std::alloc::AllocError;

/// The number of a line, or null where there is none.
#[tactic(auto, unfolding(crate::specs::Reaches::line_json))]
fn add_line(to: &mut Vec<u8>, line: Option<u64>) -> Result<(), AllocError>
    ensures { OnOk result (to.new.items ≡ to.old.items ++ line_json line) }
{
    match line {
        Some(line) => add_parts(to, &[Number(line)]),
        None => add_parts(to, &[Text("null")]),
    }
}

/// How far a granule's operations can be explained, of which this word was told at the end.
fn add_reach(to: &mut Vec<u8>, final_word: Option<u64>, reach: &Reach) -> Result<(), AllocError>
    ensures { OnOk result (to.new.items ≡ to.old.items ++ reach_members final_word reach.now) }
{
    match reach {
        Reach::Whole(words) => add_words_at_end(to, final_word, words),
        Reach::Stops(stop) => {
            add_stop(to, stop)?;
            add_before(to, stop, &stop.order, None)
        }
        Reach::Undecided => add_words_at_end(to, final_word, &Words::Unknown),
    }
}

/// A granule that no order explains as a JSON object, which ends its line: the line of the input by which that was seen, or none
/// where that was at the end; the word that was told at the end; how far its operations can be explained; and after how many
/// states the search for that ended, where it did not end by itself. Which responses are legal up to the end is not known: null.
///
/// ```
/// add_found_json(&mut text, 513, Some(7), None, &reach, None)?; // {"answer":"not explained","granule":"0000000000001008","line":7,..
/// ```
#[tactic(auto, unfolding(crate::specs::Reaches::found_json))]
pub fn add_found_json(
    to: &mut Vec<u8>,
    granule: u64,
    line: Option<u64>,
    final_word: Option<u64>,
    reach: &Reach,
    cut_short: Option<u64>,
) -> Result<(), AllocError>
    ensures { OnOk result (to.new.items ≡ to.old.items ++ found_json granule line final_word reach.now cut_short) }
{
    add_unexplained(to, granule)?;
    add_parts(to, &[Text(",\"line\":")])?;
    add_line(to, line)?;
    add_reach(to, final_word, reach)?;
    add_cut_short(to, cut_short)
}

/// A granule that was not decided after so many states as a JSON object, which ends its line, and the time up to which it is
/// explained, where one is known.
///
/// ```
/// add_doubt_json(&mut text, 513, 1_000_000, Some(39))?;
/// ```
#[tactic(auto, unfolding(crate::specs::Reaches::doubt_json))]
pub fn add_doubt_json(
    to: &mut Vec<u8>,
    granule: u64,
    states: u64,
    explained: Option<u64>,
) -> Result<(), AllocError>
    ensures { OnOk result (to.new.items ≡ to.old.items ++ doubt_json granule states explained) }
{
    add_undecided(to, granule, states, explained)?;
    add_parts(to, &[Text("}\n")])
}
