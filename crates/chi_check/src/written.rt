//! What is written of an answer.

ghost use Rattle.std.specs.Prelude.{◌≡◌, ◌++◌, IfOk};
ghost use Rattle.chi_answer.specs.Answers.{IsAnswer};
ghost use Rattle.chi_answer.specs.CutShort.{cut_short_line};
ghost use Rattle.chi_check.specs.Written.{IsLines, IsUsualText, IsWritten, blamed_text};

use crate::options::CheckOptions;
use chi_answer::{Answer, AnswerFormat, Further, add_cut_short, add_further, answer_text};
use chi_excerpt::failure_text;
use chi_page::answer_json;
use chi_reading::Recorded;
use chi_verdict::Blame;
use std::alloc::{AllocError, Global};

// The lines of where a trace stops being explained.
fn blamed_text(
    alloc: Global,
    recorded: &Recorded,
    blame: &Blame,
    further: &Further,
    options: &CheckOptions<'_>,
    cut_short: Option<u64>,
) -> Result<Vec<u8>, AllocError>
    ensures { IfOk result (λ text. text.items ≡ blamed_text options.now recorded.now blame.now further.now ++ cut_short_line cut_short) }
{
    let mut text = failure_text(alloc, recorded, blame, options.around as usize)?;
    add_further(&mut text, blame.stop.op.number, further)?;
    add_cut_short(&mut text, cut_short)?;
    Ok(text)
}

// The lines of an answer that blames no operation.
fn usual_text(
    alloc: Global,
    recorded: &Recorded,
    answer: &Answer,
    options: &CheckOptions<'_>,
    cut_short: Option<u64>,
) -> Result<Vec<u8>, AllocError>
    requires { IsAnswer recorded.now options.now.around answer.now }
    ensures { IfOk result (λ text. IsUsualText (λ cut. cut ≡ cut_short) options.now recorded.now answer.now text.items) }
{
    let mut text = answer_text(alloc, recorded, answer, options.witness)?;
    match answer {
        Answer::Explained { order: _ } => {}
        _ => add_cut_short(&mut text, cut_short)?,
    }
    Ok(text)
}

// The lines of an answer.
fn lines_of(
    alloc: Global,
    recorded: &Recorded,
    answer: &Answer,
    options: &CheckOptions<'_>,
    cut_short: Option<u64>,
) -> Result<Vec<u8>, AllocError>
    requires { IsAnswer recorded.now options.now.around answer.now }
    ensures { IfOk result (λ text. IsLines (λ cut. cut ≡ cut_short) options.now recorded.now answer.now text.items) }
{
    match answer {
        Answer::Blamed { blame, further } => blamed_text(
            alloc, recorded, blame, further, options, cut_short,
        ),
        other => usual_text(alloc, recorded, other, options, cut_short),
    }
}

/// What is written of an answer, in the form that is asked for. `cut_short` is after how many states the searches that follow a
/// verdict ended, where they did not end by themselves.
pub(crate) fn written(
    alloc: Global,
    recorded: &Recorded,
    answer: &Answer,
    options: &CheckOptions<'_>,
    cut_short: Option<u64>,
) -> Result<Vec<u8>, AllocError>
    requires { IsAnswer recorded.now options.now.around answer.now }
    ensures { IfOk result (λ text. IsWritten (λ cut. cut ≡ cut_short) options.now recorded.now answer.now text.items) }
{
    match options.format {
        AnswerFormat::Text => lines_of(alloc, recorded, answer, options, cut_short),
        AnswerFormat::Json => answer_json(
            alloc,
            recorded,
            answer,
            options.witness,
            options.around as usize,
            cut_short,
        ),
    }
}
