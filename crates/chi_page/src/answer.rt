//! An answer as JSON.

ghost use Rattle.std.specs.Prelude.{◌≡◌, ◌<◌, ◌++◌, All, IfOk, OnOk, length};
ghost use Rattle.chi_answer.specs.Answers.{IsAnswer};
ghost use Rattle.chi_page.specs.Answers.{answer_json, at_end_json, explained_json, undecided_json, witness_json};

use crate::stopped::{
    add_cut_short, add_numbers, add_stopped, add_undecided, add_unexplained, add_words_at_end,
};
use chi_answer::Answer;
use chi_reading::Recorded;
use chi_search::Words;
use chi_text::Part::{Number, Text};
use chi_text::add_parts;
use chi_trace::operations_at;
use chi_verdict::Doubt;
use std::alloc::{AllocError, Global};

/// The order that explains a trace, where a witness is asked for, and else null.
#[tactic(auto, unfolding(crate::specs::Answers::witness_json))]
fn add_witness(
    alloc: Global,
    to: &mut Vec<u8>,
    recorded: &Recorded,
    witness: bool,
    order: &[usize],
) -> Result<(), AllocError>
    requires { All (λ place. place < length recorded.now.trace.operations) order.now }
    ensures { OnOk result (to.new.items ≡ to.old.items ++ witness_json recorded.now witness order.now) }
{
    if !witness {
        return add_parts(to, &[Text("null")]);
    }
    let ops = operations_at(alloc, recorded.trace().operations(), order)?;
    add_numbers(to, &ops)
}

/// A trace that this order explains.
#[tactic(auto, unfolding(crate::specs::Answers::explained_json))]
fn add_explained(
    alloc: Global,
    to: &mut Vec<u8>,
    recorded: &Recorded,
    witness: bool,
    order: &[usize],
) -> Result<(), AllocError>
    requires { All (λ place. place < length recorded.now.trace.operations) order.now }
    ensures { OnOk result (to.new.items ≡ to.old.items ++ explained_json recorded.now witness order.now) }
{
    add_parts(to, &[Text("{\"answer\":\"explained\",\"order\":")])?;
    add_witness(alloc, to, recorded, witness, order)?;
    add_parts(to, &[Text("}\n")])
}

/// A granule that no order explains, of which no operation is blamed.
#[tactic(auto, unfolding(crate::specs::Answers::at_end_json))]
fn add_at_end(
    to: &mut Vec<u8>,
    granule: u64,
    final_word: Option<u64>,
    words: &Words,
    cut_short: Option<u64>,
) -> Result<(), AllocError>
    ensures { OnOk result (to.new.items ≡ to.old.items ++ at_end_json granule final_word words.now cut_short) }
{
    add_unexplained(to, granule)?;
    add_words_at_end(to, final_word, words)?;
    add_cut_short(to, cut_short)
}

/// A granule that was not decided.
#[tactic(auto, unfolding(crate::specs::Answers::undecided_json))]
fn add_doubt(to: &mut Vec<u8>, doubt: &Doubt, cut_short: Option<u64>) -> Result<(), AllocError>
    ensures { OnOk result (to.new.items ≡ to.old.items ++ undecided_json doubt.now cut_short) }
{
    add_undecided(to, doubt.granule, doubt.states, doubt.explained)?;
    add_parts(
        to,
        &[Text(",\"open_at_most\":"), Number(doubt.most_open as u64)],
    )?;
    add_cut_short(to, cut_short)
}

/// An answer of a trace as a JSON object, which ends its line. Of a trace that stops being explained it has no more than `around`
/// operations of the order found up to the time before, the last ones; of one that is explained all, where `witness` asks for them.
/// `cut_short` is after how many states the searches that follow a verdict ended, where they did not end by themselves.
///
/// ```
/// let text = answer_json(alloc, &recorded, &answer, false, 16, None)?; // {"answer":"explained","order":null}
/// ```
pub fn answer_json(
    alloc: Global,
    recorded: &Recorded,
    answer: &Answer,
    witness: bool,
    around: usize,
    cut_short: Option<u64>,
) -> Result<Vec<u8>, AllocError>
    requires { IsAnswer recorded.now around answer.now }
    ensures { IfOk result (λ text. text.items ≡ answer_json recorded.now witness around cut_short answer.now) }
{
    let mut text = Vec::new(alloc);
    match answer {
        Answer::Explained { order } => {
            add_explained(alloc, &mut text, recorded, witness, order)?
        }
        Answer::Blamed { blame, further } => add_stopped(
            alloc, &mut text, recorded, around, blame, further, cut_short,
        )?,
        Answer::Unexplained { granule, words } => {
            let final_word = recorded.final_words().get(*granule);
            add_at_end(&mut text, *granule, final_word, words, cut_short)?
        }
        Answer::Undecided(doubt) => add_doubt(&mut text, doubt, cut_short)?,
    }
    Ok(text)
}
