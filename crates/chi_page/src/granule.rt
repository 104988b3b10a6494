//! The granules of a trace as JSON.

ghost use Rattle.std.specs.Prelude.{◌≡◌, ◌+◌, ◌++◌, ◌<◌, All, OnOk, length, slice_get};
ghost use Rattle.chi_trace.specs.Explains.{IsTrace, at};
ghost use Rattle.chi_trace.specs.Granules.{next};
ghost use Rattle.chi_page.specs.Granules.{AreOfTrace, drawn_at, drawn_json, finding_json, granule_json, granules_json, head_json, step_json, steps_json, told_json, word_json};

use crate::drawn::Drawn;
use crate::listed::add_between;
use chi_judge::Standing;
use chi_reading::Recorded;
use chi_text::Part::{Address, Number, Text, Word};
use chi_text::add_parts;
use chi_trace::{Operation, apply_operation};
use std::alloc::AllocError;

/// What was found of a granule, as a JSON text.
///
/// ```
/// add_finding(&mut text, Standing::Unexplained)?; // "not explained"
/// ```
#[tactic(auto, unfolding(crate::specs::Granules::finding_json))]
pub fn add_finding(to: &mut Vec<u8>, finding: Standing) -> Result<(), AllocError>
    ensures { OnOk result (to.new.items ≡ to.old.items ++ finding_json finding) }
{
    match finding {
        Standing::Explained => add_parts(to, &[Text("\"explained\"")]),
        Standing::Unexplained => add_parts(to, &[Text("\"not explained\"")]),
        Standing::Undecided => add_parts(to, &[Text("\"undecided\"")]),
    }
}

/// The address of a granule.
#[tactic(auto, unfolding(crate::specs::Granules::granule_json))]
pub(crate) fn add_granule(to: &mut Vec<u8>, granule: u64) -> Result<(), AllocError>
    ensures { OnOk result (to.new.items ≡ to.old.items ++ granule_json granule) }
{
    add_parts(
        to,
        &[Text("\""), Address(granule.wrapping_mul(8)), Text("\"")],
    )
}

/// A granule's word.
#[tactic(auto, unfolding(crate::specs::Granules::word_json))]
pub(crate) fn add_word(to: &mut Vec<u8>, word: u64) -> Result<(), AllocError>
    ensures { OnOk result (to.new.items ≡ to.old.items ++ word_json word) }
{
    add_parts(to, &[Text("\""), Word(word), Text("\"")])
}

/// A word, or null where none was told.
#[tactic(auto, unfolding(crate::specs::Granules::told_json))]
pub(crate) fn add_told(to: &mut Vec<u8>, word: Option<u64>) -> Result<(), AllocError>
    ensures { OnOk result (to.new.items ≡ to.old.items ++ told_json word) }
{
    match word {
        Some(word) => add_word(to, word),
        None => add_parts(to, &[Text("null")]),
    }
}

/// An operation of an order, by its place, with the words before and after it.
#[tactic(auto, unfolding(crate::specs::Granules::step_json))]
fn add_step(to: &mut Vec<u8>, place: usize, before: u64, after: u64) -> Result<(), AllocError>
    ensures { OnOk result (to.new.items ≡ to.old.items ++ step_json place before after) }
{
    add_parts(to, &[Text("["), Number(place as u64), Text(",")])?;
    add_word(to, before)?;
    add_parts(to, &[Text(",")])?;
    add_word(to, after)?;
    add_parts(to, &[Text("]")])
}

/// The word that the operation at a place of a trace leaves of its granule's word.
fn word_after(ops: &[Operation], place: usize, word: u64) -> u64
    requires traced { IsTrace ops.now }
    requires place { place < length ops.now }
    ensures { result ≡ next (at ops.now place) word }
{
    let (after, _reply) = apply_operation(&ops[place], word);
    after
}

/// The operations of an order, from a word on.
fn add_steps(
    to: &mut Vec<u8>,
    ops: &[Operation],
    word: u64,
    order: &[usize],
) -> Result<(), AllocError>
    requires traced { IsTrace ops.now }
    requires places { All (λ i. i < length ops.now) order.now }
    ensures { OnOk result (to.new.items ≡ to.old.items ++ steps_json ops.now word order.now) }
{
    let mut before = word;
    for number in 0..order.len() {
        let place = order[number];
        let after = word_after(ops, place, before);
        add_between(to, ",\n", number)?;
        add_step(to, place, before, after)?;
        before = after;
    }
    Ok(())
}

/// A granule, what was found of it, and its words at the opening and at the end.
#[tactic(auto, unfolding(crate::specs::Granules::head_json))]
fn add_head(
    to: &mut Vec<u8>,
    granule: u64,
    finding: Standing,
    word: u64,
    final_word: Option<u64>,
) -> Result<(), AllocError>
    ensures { OnOk result (to.new.items ≡ to.old.items ++ head_json granule finding word final_word) }
{
    add_parts(to, &[Text("{\"granule\":")])?;
    add_granule(to, granule)?;
    add_parts(to, &[Text(",\"finding\":")])?;
    add_finding(to, finding)?;
    add_parts(to, &[Text(",\"opening\":")])?;
    add_word(to, word)?;
    add_parts(to, &[Text(",\"final\":")])?;
    add_told(to, final_word)
}

/// The same with the order found.
#[tactic(auto, unfolding(crate::specs::Granules::drawn_json))]
fn add_drawn(to: &mut Vec<u8>, recorded: &Recorded, drawn: &Drawn) -> Result<(), AllocError>
    requires { All (λ i. i < length recorded.now.trace.operations) drawn.now.order.items }
    ensures { OnOk result (to.new.items ≡ to.old.items ++ drawn_json recorded.now drawn.now) }
{
    let trace = recorded.trace();
    let word = trace.opening().get(drawn.granule).unwrap_or(0);
    let final_word = recorded.final_words().get(drawn.granule);
    add_head(to, drawn.granule, drawn.finding, word, final_word)?;
    add_parts(to, &[Text(",\"steps\":[")])?;
    add_steps(to, trace.operations(), word, &drawn.order)?;
    add_parts(to, &[Text("]}")])
}

/// The granule at a place of a list.
fn add_drawn_at(
    to: &mut Vec<u8>,
    recorded: &Recorded,
    granules: &[Drawn],
    at: usize,
) -> Result<(), AllocError>
    requires at { at < length granules.now }
    requires places { AreOfTrace recorded.now granules.now }
    ensures { OnOk result (to.new.items ≡ to.old.items ++ drawn_at recorded.now (slice_get granules.now at)) }
{
    add_drawn(to, recorded, &granules[at])
}

/// All granules.
pub(crate) fn add_granules(
    to: &mut Vec<u8>,
    recorded: &Recorded,
    granules: &[Drawn],
) -> Result<(), AllocError>
    requires { AreOfTrace recorded.now granules.now }
    ensures { OnOk result (to.new.items ≡ to.old.items ++ granules_json recorded.now granules.now) }
{
    for number in 0..granules.len() {
        add_between(to, ",\n", number)?;
        add_drawn_at(to, recorded, granules, number)?;
    }
    Ok(())
}
