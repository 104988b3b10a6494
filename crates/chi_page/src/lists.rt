//! Lists of requests' numbers, of words and of granules as JSON.

ghost use Rattle.std.specs.Prelude.{◌≡◌, ◌++◌, OnOk, decimal};
ghost use Rattle.chi_page.specs.Granules.{addresses_json, each_word_json, requests_json, words_json};

use crate::granule::{add_granule, add_word};
use crate::listed::add_between;
use chi_search::Words;
use chi_text::Part::{Number, Text};
use chi_text::add_parts;
use chi_trace::Operation;
use std::alloc::AllocError;

/// The number of an operation's request.
fn add_request(to: &mut Vec<u8>, op: &Operation) -> Result<(), AllocError>
    ensures { OnOk result (to.new.items ≡ to.old.items ++ decimal op.now.number) }
{
    add_parts(to, &[Number(op.number)])
}

/// The numbers of operations' requests.
pub(crate) fn add_requests(to: &mut Vec<u8>, ops: &[Operation]) -> Result<(), AllocError>
    ensures { OnOk result (to.new.items ≡ to.old.items ++ requests_json ops.now) }
{
    for number in 0..ops.len() {
        add_between(to, ",", number)?;
        add_request(to, &ops[number])?;
    }
    Ok(())
}

/// Words of a granule.
fn add_each_word(to: &mut Vec<u8>, words: &[u64]) -> Result<(), AllocError>
    ensures { OnOk result (to.new.items ≡ to.old.items ++ each_word_json words.now) }
{
    for number in 0..words.len() {
        add_between(to, ",", number)?;
        add_word(to, words[number])?;
    }
    Ok(())
}

/// The addresses of granules.
pub(crate) fn add_addresses(to: &mut Vec<u8>, granules: &[u64]) -> Result<(), AllocError>
    ensures { OnOk result (to.new.items ≡ to.old.items ++ addresses_json granules.now) }
{
    for number in 0..granules.len() {
        add_between(to, ",", number)?;
        add_granule(to, granules[number])?;
    }
    Ok(())
}

/// The words that a granule can hold, or null where they were not found.
#[tactic(auto, unfolding(crate::specs::Granules::words_json))]
pub(crate) fn add_words(to: &mut Vec<u8>, words: &Words) -> Result<(), AllocError>
    ensures { OnOk result (to.new.items ≡ to.old.items ++ words_json words.now) }
{
    match words {
        Words::Each(words) => {
            add_parts(to, &[Text("[")])?;
            add_each_word(to, words)?;
            add_parts(to, &[Text("]")])
        }
        Words::Unknown => add_parts(to, &[Text("null")]),
    }
}
