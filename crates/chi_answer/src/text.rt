//! The text of an answer.

ghost use Rattle.std.specs.Prelude.{◌≡◌, ◌++◌, ℕ, IfOk, OnOk};
ghost use Rattle.chi_answer.specs.Answers.{IsAnswer};
ghost use Rattle.chi_answer.specs.Lines.{end_line};
ghost use Rattle.chi_answer.specs.Texts.{IsText, blame_text, end_text};

use crate::answer::Answer;
use crate::doubt_lines::add_doubt;
use crate::further_lines::add_further;
use crate::lines::{add_granule, add_words};
use crate::stop_lines::add_stop;
use crate::witness::add_witness;
use chi_reading::Recorded;
use chi_search::Words;
use chi_text::Part::{Text, Word};
use chi_text::add_parts;
use chi_verdict::Blame;
use std::alloc::{AllocError, Global};

/// The line of the word that was observed at the end.
fn add_end(to: &mut Vec<u8>, word: u64) -> Result<(), AllocError>
    ensures { OnOk result (to.new.items ≡ to.old.items ++ end_line word) }
{
    add_parts(to, &[Text("at the end: "), Word(word), Text("\n")])
}

/// Adds what is said of where a trace stops being explained: its granule, and where that one's operations do.
///
/// ```
/// add_blame(&mut text, &blame)?; // not explained: granule 0000000000001008
/// ```
pub fn add_blame(to: &mut Vec<u8>, blame: &Blame) -> Result<(), AllocError>
    ensures { OnOk result (to.new.items ≡ to.old.items ++ blame_text blame.now) }
{
    add_granule(to, blame.granule)?;
    add_stop(to, &blame.stop, Some(blame.order.len()))
}

/// Adds the word that was observed at the end, where one was, and those that could have been there, where they were found.
///
/// ```
/// add_words_at_end(&mut text, Some(4), &Words::Each(words))?; // at the end: 0400000000000000
/// ```
pub fn add_words_at_end(
    to: &mut Vec<u8>,
    final_word: Option<u64>,
    words: &Words,
) -> Result<(), AllocError>
    ensures { OnOk result (to.new.items ≡ to.old.items ++ end_text final_word words.now) }
{
    let Some(word) = final_word else {
        return Ok(());
    };
    match words {
        Words::Each(each) => {
            if each.is_empty() {
                return Ok(());
            }
            add_end(to, word)?;
            add_words(to, each)
        }
        Words::Unknown => Ok(()),
    }
}

/// The text of an answer. With `witness` an explained trace's operations follow in the order found, each with the reply that it
/// gets in it, and then the memory after them: the granules of a region, and else those of which a word was told at the
/// opening or that have an operation in the order.
///
/// ```
/// let text = answer_text(alloc, &recorded, &answer, false)?; // explained
/// ```
pub fn answer_text(
    alloc: Global,
    recorded: &Recorded,
    answer: &Answer,
    witness: bool,
) -> Result<Vec<u8>, AllocError>
    requires { (most : ℕ) × IsAnswer recorded.now most answer.now }
    ensures { IfOk result (λ text. IsText witness recorded.now answer.now text.items) }
{
    let mut text = Vec::new(alloc);
    match answer {
        Answer::Explained { order } => {
            add_parts(&mut text, &[Text("explained\n")])?;
            if witness {
                add_witness(alloc, &mut text, recorded, order)?;
            }
        }
        Answer::Blamed { blame, further } => {
            add_blame(&mut text, blame)?;
            add_further(&mut text, blame.stop.op.number, further)?;
        }
        Answer::Unexplained { granule, words } => {
            add_granule(&mut text, *granule)?;
            add_words_at_end(&mut text, recorded.final_words().get(*granule), words)?;
        }
        Answer::Undecided(doubt) => add_doubt(&mut text, doubt)?,
    }
    Ok(text)
}
