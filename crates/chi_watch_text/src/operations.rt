//! Lines that are read one by one, and the operations and the refusals that they tell.

ghost use Rattle.std.specs.Prelude.{◌≡◌, [], ◌∷◌, ◌++◌, List, Some, IfErr, IfOk, IfSome, IsPermutation, OnOk, filter_map, option_to_list};
ghost use Rattle.chi_trace.specs.declared.operation.Operation.{Operation};
ghost use Rattle.chi_events.specs.declared.event.Event.{Event};
ghost use Rattle.chi_events.specs.Operations.{refusals_told};
ghost use Rattle.chi_events.specs.Outstanding.{Tells, open_operation, refusal_by};
ghost use Rattle.chi_watch_text.specs.Operations.{AreInOrder, AreOperations, AreRefusals, IsOperationsFault, IsTakingFault};

use crate::fault::LinesFault;
use crate::line_format::LineFormat;
use crate::reading::Reading;
use chi_events::laws::operations_are_told;
use chi_events::{Event, EventFault, Open, Outstanding};
use chi_fields::Refusal;
use chi_trace::Operation;
use chi_watch::WatchFault;
use std::alloc::{AllocError, Global};
use std::io::BufRead;

/// What events tell: the operations, in the order of their starts, and why requests were refused, where that is known.
#[derive(Debug, Drop)]
pub struct OperationsTold {
    pub operations: Vec<Operation>,
    pub refusals: Vec<Refusal>,
}

/// Has the event of the line with this number come next: the operation that ended by it, if one did.
fn take_event(
    outstanding: &mut Outstanding,
    event: &Event,
    number: u64,
) -> Result<Option<Operation>, LinesFault>
    ensures tells { IfOk result (λ ended. (events : List Event) (past : List Operation) → Tells events past outstanding.old → Tells (events ++ event.now ∷ []) (past ++ option_to_list ended) outstanding.new) }
    ensures refusals { IfOk result (λ ended. (events : List Event) (past : List Operation) → Tells events past outstanding.old → IsPermutation (refusals_told (events ++ event.now ∷ [])) (refusals_told events ++ option_to_list (refusal_by outstanding.old.requests event.now.kind))) }
    ensures fault { IfErr result (IsTakingFault outstanding.old event.now number) }
{
    match outstanding.take(event) {
        Ok(ended) => Ok(ended),
        Err(EventFault::Memory) => Err(LinesFault::Memory),
        Err(fault) => Err(LinesFault::Event {
            number,
            fault: WatchFault::Event(fault),
        }),
    }
}

/// Adds an item, where there is one.
pub(crate) fn add_some<T: Drop>(items: &mut Vec<T>, item: Option<T>) -> Result<(), AllocError>
    ensures { OnOk result (items.new.items ≡ items.old.items ++ option_to_list item) }
{
    if let Some(item) = item {
        items.push(item)?;
    }
    Ok(())
}

/// Adds the operations of requests that are outstanding and have their data.
fn add_open(ops: &mut Vec<Operation>, requests: &[Open]) -> Result<(), AllocError>
    ensures { OnOk result (ops.new.items ≡ ops.old.items ++ filter_map open_operation requests.now) }
{
    for request in requests {
        add_some(ops, request.operation())?;
    }
    Ok(())
}

/// The operations that had ended and those that are still open, in the order of their starts.
pub(crate) fn in_order(
    alloc: Global,
    mut ops: Vec<Operation>,
    outstanding: &Outstanding,
) -> Result<Vec<Operation>, AllocError>
    ensures { IfOk result (λ all. (events : List Event) → Tells events ops.items outstanding.now → AreInOrder events all.items) }
{
    operations_are_told();
    let requests = outstanding.requests(alloc)?;
    add_open(&mut ops, &requests)?;
    ops.sort_by_key(|op| op.start)?;
    Ok(ops)
}

/// Reads lines of a format, one by one, before which nothing is outstanding: the operations that they tell, and why requests were
/// refused.
fn read_each<R: BufRead>(
    alloc: Global,
    from: &mut R,
    format: LineFormat,
    mut outstanding: Outstanding,
) -> Result<OperationsTold, LinesFault>
    requires { Tells [] [] outstanding }
    ensures told { IfSome (R.remaining from.old) (λ text. IfOk result (λ told. AreOperations format text told.operations.items)) }
    ensures refusals { IfSome (R.remaining from.old) (λ text. IfOk result (λ told. AreRefusals format text told.refusals.items)) }
    ensures fault { IfSome (R.remaining from.old) (λ text. IfErr result (IsOperationsFault format text)) }
{
    let mut ops = Vec::new(alloc);
    let mut refusals = Vec::new(alloc);
    let mut reading = Reading::new(alloc, format);
    for _ in 0..u64::MAX {
        let Some(event) = reading.next_event(alloc, from)? else {
            return Ok(OperationsTold {
                operations: in_order(alloc, ops, &outstanding)?,
                refusals,
            });
        };
        let refusal = outstanding.refusal(&event);
        let ended = take_event(&mut outstanding, &event, reading.number)?;
        add_some(&mut ops, ended)?;
        add_some(&mut refusals, refusal)?;
    }
    Err(LinesFault::TooManyLines)
}

/// Reads lines of a format, one by one: the operations that they tell, in the order of their starts, and why requests were refused:
/// for the reason that is told, or else for the one that a home of all addresses has, if it has one. A request that was dropped or
/// refused, or whose data never came, is no operation; one that was outstanding at the end is open, unless a home of all
/// addresses refuses it. Words are read, and nothing is said of them. Each operation has the number of the line that told its
/// request.
///
/// The last line needs no line feed, and blank ones after it tell nothing. Operations that start at the same time stand in some
/// order.
///
/// ```
/// let ops = read_operations(alloc, &mut reader, LineFormat::Events)?.operations;
/// ```
pub fn read_operations<R: BufRead>(
    alloc: Global,
    from: &mut R,
    format: LineFormat,
) -> Result<OperationsTold, LinesFault>
    ensures told { IfSome (R.remaining from.old) (λ text. IfOk result (λ told. AreOperations format text told.operations.items)) }
    ensures refusals { IfSome (R.remaining from.old) (λ text. IfOk result (λ told. AreRefusals format text told.refusals.items)) }
    ensures fault { IfSome (R.remaining from.old) (λ text. IfErr result (IsOperationsFault format text)) }
{
    let outstanding = Outstanding::new(alloc)?;
    read_each(alloc, from, format, outstanding)
}
