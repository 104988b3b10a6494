//! The lines of an answer.

ghost use Rattle.std.specs.Prelude.{◌≡◌, ◌++◌, OnOk, flat_map};
ghost use Rattle.chi_script.specs.Transcript.{request_text};
ghost use Rattle.chi_trace.specs.Fields.{request_in};
ghost use Rattle.chi_answer.specs.Lines.{answered_text, granule_line, more_line, operation_text, seen_text, told_text, undecided_line, word_line, word_lines};

use chi_fields::op_name;
use chi_lanes::Reply;
use chi_text::Part::{Address, Number, Opcode, Packet, Text, Word};
use chi_text::add_parts;
use chi_trace::Operation;
use std::alloc::AllocError;

/// The fields of an operation's request, each with the space after it.
fn add_request(to: &mut Vec<u8>, op: &Operation) -> Result<(), AllocError>
    ensures { OnOk result (to.new.items ≡ to.old.items ++ request_text (request_in op.now)) }
{
    let opcode = op.opcode();
    add_parts(
        to,
        &[
            Number(op.src as u64),
            Text(" "),
            Number(op.txn as u64),
            Text(" "),
            Opcode(opcode),
            Text(" "),
            Text(op_name(opcode)),
            Text(" "),
            Number(op.size() as u64),
            Text(" "),
            Address(op.access.addr()),
            Text(" "),
        ],
    )
}

/// What was answered, where it was seen.
fn add_reply(to: &mut Vec<u8>, reply: Option<Reply>) -> Result<(), AllocError>
    ensures { OnOk result (to.new.items ≡ to.old.items ++ seen_text reply) }
{
    match reply {
        Some(Reply::Comp) => add_parts(to, &[Text("comp")]),
        Some(Reply::CompData(lanes)) => { add_parts(to, &[Text("data "), Packet(lanes)]) }
        None => add_parts(to, &[Text("no reply")]),
    }
}

/// The line of an operation: its request, and what was answered, where that was seen.
pub(crate) fn add_operation(
    to: &mut Vec<u8>,
    op: &Operation,
    reply: Option<Reply>,
) -> Result<(), AllocError>
    ensures { OnOk result (to.new.items ≡ to.old.items ++ operation_text op.now reply) }
{
    add_request(to, op)?;
    add_reply(to, reply)?;
    add_parts(to, &[Text("\n")])
}

/// Whether it was answered.
fn answered_name(reply: Option<Reply>) -> &'static str
    ensures { result.now ≡ answered_text reply }
{
    if reply.is_some() {
        "answered"
    } else {
        "no reply"
    }
}

/// The line of an operation whose data are told elsewhere: its request, and whether it was answered.
pub(crate) fn add_told(to: &mut Vec<u8>, op: &Operation) -> Result<(), AllocError>
    ensures { OnOk result (to.new.items ≡ to.old.items ++ told_text op.now) }
{
    add_request(to, op)?;
    add_parts(to, &[Text(answered_name(op.reply)), Text("\n")])
}

/// Adds the line of a granule that cannot be explained, which has this number.
///
/// ```
/// add_granule(&mut text, 512)?; // not explained: granule 0000000000001000
/// ```
pub fn add_granule(to: &mut Vec<u8>, granule: u64) -> Result<(), AllocError>
    ensures { OnOk result (to.new.items ≡ to.old.items ++ granule_line granule) }
{
    add_parts(
        to,
        &[
            Text("not explained: granule "),
            Address(granule.wrapping_mul(8)),
            Text("\n"),
        ],
    )
}

/// The line of a word that the granule can hold.
fn add_word(to: &mut Vec<u8>, word: u64) -> Result<(), AllocError>
    ensures { OnOk result (to.new.items ≡ to.old.items ++ word_line word) }
{
    add_parts(
        to,
        &[Text("  the granule can hold "), Word(word), Text("\n")],
    )
}

/// The lines of words that the granule can hold.
fn add_each(to: &mut Vec<u8>, words: &[u64]) -> Result<(), AllocError>
    ensures { OnOk result (to.new.items ≡ to.old.items ++ flat_map word_line words.now) }
{
    for word in words {
        add_word(to, *word)?;
    }
    Ok(())
}

/// The line of how many more words there are.
fn add_more(to: &mut Vec<u8>, more: usize) -> Result<(), AllocError>
    ensures { OnOk result (to.new.items ≡ to.old.items ++ more_line more) }
{
    add_parts(to, &[Text("  and "), Number(more as u64), Text(" more\n")])
}

/// The lines of words that the granule can hold: of 16 at most, and how many more there are.
pub(crate) fn add_words(to: &mut Vec<u8>, words: &[u64]) -> Result<(), AllocError>
    ensures { OnOk result (to.new.items ≡ to.old.items ++ word_lines words.now) }
{
    if words.len() <= 16 {
        return add_each(to, words);
    }
    add_each(to, &words[..16])?;
    add_more(to, words.len() - 16)
}

/// Adds the line of an answer that was not found: of this granule so many states were looked at.
///
/// ```
/// add_undecided(&mut text, 512, 0)?; // undecided: granule 0000000000001000 after 0 states
/// ```
pub fn add_undecided(to: &mut Vec<u8>, granule: u64, states: u64) -> Result<(), AllocError>
    ensures { OnOk result (to.new.items ≡ to.old.items ++ undecided_line granule states) }
{
    add_parts(
        to,
        &[
            Text("undecided: granule "),
            Address(granule.wrapping_mul(8)),
            Text(" after "),
            Number(states),
            Text(" states\n"),
        ],
    )
}
