//! Why no home answers as one did, as a line.

ghost use Rattle.std.specs.Prelude.{◌≡◌, ◌++◌, OnOk};
ghost use Rattle.chi_excerpt.specs.Impossible.{impossible_text, reason_text};
ghost use Rattle.chi_trace.specs.Replies.{reply_fault};

use chi_text::{Part, add_parts};
use chi_trace::{Operation, ReplyFault, reply_fault};
use std::alloc::AllocError;

/// Why an access has no such reply.
fn reason(fault: ReplyFault) -> &'static str
    ensures { result.now ≡ reason_text fault }
{
    match fault {
        ReplyFault::WithData => "its kind has a reply without data",
        ReplyFault::WithoutData => "its kind has a reply with data",
        ReplyFault::OutsideOperand => "a byte outside its operand is not 0",
    }
}

/// The line of an operation that was answered as no home answers it, whatever the memory holds.
#[tactic(auto, unfolding(crate::specs::Impossible::impossible_text))]
pub(crate) fn add_impossible(to: &mut Vec<u8>, row: &Operation) -> Result<(), AllocError>
    ensures { OnOk result (to.new.items ≡ to.old.items ++ impossible_text (reply_fault row.now.access row.now.reply)) }
{
    let Some(fault) = reply_fault(&row.access, &row.reply) else {
        return Ok(());
    };
    add_parts(
        to,
        &[
            Part::Text("    no home answers so: "),
            Part::Text(reason(fault)),
            Part::Text("\n"),
        ],
    )
}
