//! The lines of an order that explains a trace, and of the memory after it.

ghost use Rattle.std.specs.Prelude.{◌≡◌, ℕ, ◌++◌, List, All, true, OnOk, flat_map, length};
ghost use Rattle.chi_trace.specs.Explains.{is_place};
ghost use Rattle.chi_trace.specs.Executions.{replies_in};
ghost use Rattle.chi_trace.specs.Words.{memory_of};
ghost use Rattle.chi_answer.specs.Witnesses.{IsWitness, memory_line, operation_lines};

use crate::lines::add_operation;
use chi_lanes::Reply;
use chi_reading::Recorded;
use chi_text::Part::{Address, Text, Word};
use chi_text::add_parts;
use chi_trace::{GranuleWord, execute};
use std::alloc::{AllocError, Global};

/// The lines of the operations in an order, each with the reply that it gets in it.
fn add_operations(
    to: &mut Vec<u8>,
    recorded: &Recorded,
    order: &[usize],
    replies: &[Reply],
) -> Result<(), AllocError>
    requires places { All (λ i. is_place recorded.now.trace.operations i ≡ true) order.now }
    requires replies { replies.now ≡ replies_in recorded.now.trace.operations (memory_of recorded.now.trace.opening) order.now }
    ensures { OnOk result (to.new.items ≡ to.old.items ++ operation_lines recorded.now (memory_of recorded.now.trace.opening) order.now) }
{
    let ops = recorded.trace().operations();
    for at in 0..replies.len() {
        add_operation(to, &ops[order[at]], Some(replies[at]))?;
    }
    Ok(())
}

/// The line of a granule of the memory.
fn add_memory_line(to: &mut Vec<u8>, told: &GranuleWord) -> Result<(), AllocError>
    ensures { OnOk result (to.new.items ≡ to.old.items ++ memory_line told.now) }
{
    add_parts(
        to,
        &[
            Text("m "),
            Address(told.granule.wrapping_mul(8)),
            Text(" "),
            Word(told.word),
            Text("\n"),
        ],
    )
}

/// The lines of some granules.
fn add_memory(to: &mut Vec<u8>, words: &[GranuleWord]) -> Result<(), AllocError>
    ensures { OnOk result (to.new.items ≡ to.old.items ++ flat_map memory_line words.now) }
{
    for told in words {
        add_memory_line(to, told)?;
    }
    Ok(())
}

/// The operations in an order, each with the reply that it gets, and the memory after them.
pub(crate) fn add_witness(
    alloc: Global,
    to: &mut Vec<u8>,
    recorded: &Recorded,
    order: &[usize],
) -> Result<(), AllocError>
    requires { All (λ i. is_place recorded.now.trace.operations i ≡ true) order.now }
    ensures { OnOk result ((witness : List ℕ) × IsWitness recorded.now order.now witness × (to.new.items ≡ to.old.items ++ witness)) }
{
    let executed = execute(alloc, recorded.trace(), order)?;
    add_operations(to, recorded, order, &executed.replies)?;
    add_memory(to, executed.words.as_slice())
}
