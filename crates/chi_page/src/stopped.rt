//! How far a granule is explained, as the members of a JSON object.

ghost use Rattle.std.specs.Prelude.{◌≡◌, ◌<◌, ◌++◌, All, IfOk, OnOk, length};
ghost use Rattle.chi_excerpt.specs.Failures.{last_operations, order_in};
ghost use Rattle.chi_page.specs.Answers.{before_members, beside_member, cut_short_json, end_members, granule_members, known_json, numbers_json, stop_members, stopped_json, to_the_end_json, undecided_members};

use crate::granule::{add_granule, add_told};
use crate::lists::{add_addresses, add_requests, add_words};
use crate::object::{add_object, add_objects, add_replies};
use chi_answer::Further;
use chi_excerpt::order_in;
use chi_judge::Stop;
use chi_reading::Recorded;
use chi_search::Words;
use chi_text::Part::{Number, Text};
use chi_text::add_parts;
use chi_trace::{Operation, operations_at};
use chi_verdict::Blame;
use std::alloc::{AllocError, Global};

/// A time or a count of states, or null where there is none.
#[tactic(auto, unfolding(crate::specs::Answers::known_json))]
pub(crate) fn add_known(to: &mut Vec<u8>, known: Option<u64>) -> Result<(), AllocError>
    ensures { OnOk result (to.new.items ≡ to.old.items ++ known_json known) }
{
    match known {
        Some(number) => add_parts(to, &[Text("\""), Number(number), Text("\"")]),
        None => add_parts(to, &[Text("null")]),
    }
}

/// Whether a legal response explains the granule to its end, or null where that is not known.
#[tactic(auto, unfolding(crate::specs::Answers::to_the_end_json))]
fn add_to_the_end(to: &mut Vec<u8>, to_the_end: Option<bool>) -> Result<(), AllocError>
    ensures { OnOk result (to.new.items ≡ to.old.items ++ to_the_end_json to_the_end) }
{
    match to_the_end {
        Some(true) => add_parts(to, &[Text("true")]),
        Some(false) => add_parts(to, &[Text("false")]),
        None => add_parts(to, &[Text("null")]),
    }
}

/// A list of the numbers of operations' requests.
#[tactic(auto, unfolding(crate::specs::Answers::numbers_json))]
pub(crate) fn add_numbers(to: &mut Vec<u8>, ops: &[Operation]) -> Result<(), AllocError>
    ensures { OnOk result (to.new.items ≡ to.old.items ++ numbers_json ops.now) }
{
    add_parts(to, &[Text("[")])?;
    add_requests(to, ops)?;
    add_parts(to, &[Text("]")])
}

/// After how many states a search was cut short, which ends the object.
#[tactic(auto, unfolding(crate::specs::Answers::cut_short_json))]
pub(crate) fn add_cut_short(to: &mut Vec<u8>, cut_short: Option<u64>) -> Result<(), AllocError>
    ensures { OnOk result (to.new.items ≡ to.old.items ++ cut_short_json cut_short) }
{
    add_parts(to, &[Text(",\"cut_short\":")])?;
    add_known(to, cut_short)?;
    add_parts(to, &[Text("}\n")])
}

/// That no order explains a granule, which begins the object.
#[tactic(auto, unfolding(crate::specs::Answers::granule_members))]
pub(crate) fn add_unexplained(to: &mut Vec<u8>, granule: u64) -> Result<(), AllocError>
    ensures { OnOk result (to.new.items ≡ to.old.items ++ granule_members granule) }
{
    add_parts(to, &[Text("{\"answer\":\"not explained\",\"granule\":")])?;
    add_granule(to, granule)
}

/// The operation that is blamed, and what is known of the granule at its end.
#[tactic(auto, unfolding(crate::specs::Answers::stop_members))]
pub(crate) fn add_stop(to: &mut Vec<u8>, stop: &Stop) -> Result<(), AllocError>
    ensures { OnOk result (to.new.items ≡ to.old.items ++ stop_members stop.now) }
{
    add_parts(
        to,
        &[
            Text(",\"time\":\""),
            Number(stop.time),
            Text("\",\"blamed\":"),
        ],
    )?;
    add_object(to, &stop.op)?;
    add_parts(to, &[Text(",\"suspects\":")])?;
    add_numbers(to, &stop.suspects)?;
    add_parts(to, &[Text(",\"open\":")])?;
    add_objects(to, &stop.overlapping)?;
    add_parts(to, &[Text(",\"words\":")])?;
    add_words(to, &stop.words)
}

/// The operations before it, those of an order up to the time before, and which responses would be legal.
#[tactic(auto, unfolding(crate::specs::Answers::before_members))]
pub(crate) fn add_before(
    to: &mut Vec<u8>,
    stop: &Stop,
    order: &[Operation],
    to_the_end: Option<bool>,
) -> Result<(), AllocError>
    ensures { OnOk result (to.new.items ≡ to.old.items ++ before_members stop.now order.now to_the_end) }
{
    add_parts(to, &[Text(",\"before\":")])?;
    add_objects(to, &stop.before)?;
    add_parts(to, &[Text(",\"order\":")])?;
    add_numbers(to, order)?;
    add_parts(to, &[Text(",\"legal\":")])?;
    add_replies(to, &stop.legal)?;
    add_parts(to, &[Text(",\"legal_to_the_end\":")])?;
    add_to_the_end(to, to_the_end)
}

/// The other granules of the line of 64 bytes that no order explains.
#[tactic(auto, unfolding(crate::specs::Answers::beside_member))]
fn add_beside(to: &mut Vec<u8>, beside: &[u64]) -> Result<(), AllocError>
    ensures { OnOk result (to.new.items ≡ to.old.items ++ beside_member beside.now) }
{
    add_parts(to, &[Text(",\"also_not_explained\":[")])?;
    add_addresses(to, beside)?;
    add_parts(to, &[Text("]")])
}

/// The word of a granule that was told at the end, and the words that it can hold.
#[tactic(auto, unfolding(crate::specs::Answers::end_members))]
pub(crate) fn add_words_at_end(
    to: &mut Vec<u8>,
    final_word: Option<u64>,
    words: &Words,
) -> Result<(), AllocError>
    ensures { OnOk result (to.new.items ≡ to.old.items ++ end_members final_word words.now) }
{
    add_parts(to, &[Text(",\"at_end\":")])?;
    add_told(to, final_word)?;
    add_parts(to, &[Text(",\"words\":")])?;
    add_words(to, words)
}

/// A granule that was not decided, after so many states, and the time up to which it is explained, which begins the object.
#[tactic(auto, unfolding(crate::specs::Answers::undecided_members))]
pub(crate) fn add_undecided(
    to: &mut Vec<u8>,
    granule: u64,
    states: u64,
    explained: Option<u64>,
) -> Result<(), AllocError>
    ensures { OnOk result (to.new.items ≡ to.old.items ++ undecided_members granule states explained) }
{
    add_parts(to, &[Text("{\"answer\":\"undecided\",\"granule\":")])?;
    add_granule(to, granule)?;
    add_parts(
        to,
        &[
            Text(",\"states\":\""),
            Number(states),
            Text("\",\"explained_to\":"),
        ],
    )?;
    add_known(to, explained)
}

/// The last so many operations of an order.
fn last_operations(
    alloc: Global,
    recorded: &Recorded,
    around: usize,
    order: &[usize],
) -> Result<Vec<Operation>, AllocError>
    requires { All (λ place. place < length recorded.now.trace.operations) order.now }
    ensures { IfOk result (λ last. last.items ≡ last_operations recorded.now around order.now) }
{
    let last = &order[order.len().saturating_sub(around)..];
    operations_at(alloc, recorded.trace().operations(), last)
}

/// The last so many operations of the granule in an order that explains the trace up to the time before.
fn last_before(
    alloc: Global,
    recorded: &Recorded,
    around: usize,
    blame: &Blame,
) -> Result<Vec<Operation>, AllocError>
    ensures { IfOk result (λ last. last.items ≡ last_operations recorded.now around (order_in recorded.now blame.now.granule blame.now.order.items)) }
{
    let own = order_in(alloc, recorded, blame.granule, &blame.order)?;
    last_operations(alloc, recorded, around, &own)
}

/// Where a trace stops being explained.
#[tactic(auto, unfolding(crate::specs::Answers::stopped_json))]
pub(crate) fn add_stopped(
    alloc: Global,
    to: &mut Vec<u8>,
    recorded: &Recorded,
    around: usize,
    blame: &Blame,
    further: &Further,
    cut_short: Option<u64>,
) -> Result<(), AllocError>
    ensures { OnOk result (to.new.items ≡ to.old.items ++ stopped_json recorded.now around blame.now further.now cut_short) }
{
    let order = last_before(alloc, recorded, around, blame)?;
    add_unexplained(to, blame.granule)?;
    add_stop(to, &blame.stop)?;
    add_before(to, &blame.stop, &order, further.to_the_end)?;
    add_beside(to, &further.beside)?;
    add_cut_short(to, cut_short)
}
