//! The text of where a trace stops being explained.

ghost use Rattle.std.specs.Prelude.{◌≡◌, ◌<◌, ◌++◌, All, IfOk, OnOk, length};
ghost use Rattle.chi_excerpt.specs.Failures.{failure_text, last_lines, last_operations, order_in, order_words};

use crate::excerpt::{add_excerpt, add_order};
use crate::writers::add_writers;
use chi_answer::add_blame;
use chi_judge::Stop;
use chi_reading::Recorded;
use chi_trace::{Operation, operations_at};
use chi_verdict::Blame;
use std::alloc::{AllocError, Global};

/// What an order of the whole trace has of a granule.
///
/// ```
/// let own = order_in(alloc, &recorded, blame.granule, &blame.order)?;
/// ```
pub fn order_in(
    alloc: Global,
    recorded: &Recorded,
    granule: u64,
    order: &[usize],
) -> Result<Vec<usize>, AllocError>
    ensures { IfOk result (λ own. own.items ≡ order_in recorded.now granule order.now) }
{
    let ops = recorded.trace().operations();
    let mut own = Vec::new(alloc);
    for place in order {
        if *place < ops.len() && ops[*place].granule() == granule {
            own.push(*place)?;
        }
    }
    Ok(own)
}

/// How the last so many of an order are told.
fn order_words(most: usize, count: usize) -> &'static str
    ensures { result.now ≡ order_words most count }
{
    if count > most {
        " in an order that ends with requests"
    } else {
        " in this order: requests"
    }
}

/// The last so many of an order that explains the granule's operations up to the time before.
fn last_operations(
    alloc: Global,
    recorded: &Recorded,
    most: usize,
    order: &[usize],
) -> Result<Vec<Operation>, AllocError>
    requires { All (λ place. place < length recorded.now.trace.operations) order.now }
    ensures { IfOk result (λ last. last.items ≡ last_operations recorded.now most order.now) }
{
    let last = &order[order.len().saturating_sub(most)..];
    operations_at(alloc, recorded.trace().operations(), last)
}

/// The line of these, and which of them wrote the wrong bytes last.
fn add_last(
    alloc: Global,
    to: &mut Vec<u8>,
    recorded: &Recorded,
    most: usize,
    stop: &Stop,
    order: &[usize],
) -> Result<(), AllocError>
    requires { All (λ place. place < length recorded.now.trace.operations) order.now }
    ensures { OnOk result (to.new.items ≡ to.old.items ++ last_lines recorded.now most stop.now order.now) }
{
    let ops = last_operations(alloc, recorded, most, order)?;
    add_order(to, order_words(most, order.len()), stop.time, &ops)?;
    add_writers(alloc, to, "request", stop, &ops)
}

/// The text of where a trace stops being explained: what is said of it, the operations of the granule around the one that is
/// blamed, the last of the order before, `around` of it at most, and which of them wrote the wrong bytes last.
///
/// ```
/// let text = failure_text(alloc, &recorded, &blame, 16)?;
/// ```
pub fn failure_text(
    alloc: Global,
    recorded: &Recorded,
    blame: &Blame,
    around: usize,
) -> Result<Vec<u8>, AllocError>
    ensures { IfOk result (λ text. text.items ≡ failure_text recorded.now around blame.now) }
{
    let order = order_in(alloc, recorded, blame.granule, &blame.order)?;
    let mut text = Vec::new(alloc);
    add_blame(&mut text, blame)?;
    add_excerpt(alloc, &mut text, "request", &blame.stop)?;
    add_last(alloc, &mut text, recorded, around, &blame.stop, &order)?;
    Ok(text)
}
