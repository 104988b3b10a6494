//! The lines of requests that are outstanding at the end.

ghost use Rattle.std.specs.Prelude.{◌≡◌, ◌++◌, OnOk, flat_map};
ghost use Rattle.chi_watch_text.specs.Texts.{fields_text, waiting_line, waits_text};

use crate::waiting::{Waiting, WaitsFor};
use chi_fields::op_name;
use chi_text::Part::{Address, Number, Opcode, Text};
use chi_text::add_parts;
use chi_trace::RequestFields;
use std::alloc::AllocError;

/// What a request waits for.
pub(crate) fn waits_name(waits_for: WaitsFor) -> &'static str
    ensures { result.now ≡ waits_text waits_for }
{
    match waits_for {
        WaitsFor::Data => "data",
        WaitsFor::Dbid => "DBID",
        WaitsFor::Reply => "reply",
    }
}

/// The fields of a request, each with the space after it.
fn add_fields(to: &mut Vec<u8>, fields: &RequestFields) -> Result<(), AllocError>
    ensures { OnOk result (to.new.items ≡ to.old.items ++ fields_text fields.now) }
{
    add_parts(
        to,
        &[
            Number(fields.src as u64),
            Text(" "),
            Number(fields.txn as u64),
            Text(" "),
            Opcode(fields.opcode),
            Text(" "),
            Text(op_name(fields.opcode)),
            Text(" "),
            Number(fields.size as u64),
            Text(" "),
            Address(fields.addr),
            Text(" "),
        ],
    )
}

/// The line of an outstanding request.
fn add_waiting(to: &mut Vec<u8>, waiting: &Waiting) -> Result<(), AllocError>
    ensures { OnOk result (to.new.items ≡ to.old.items ++ waiting_line waiting.now) }
{
    add_parts(
        to,
        &[
            Text("    line "),
            Number(waiting.fields.number),
            Text(" since "),
            Number(waiting.since),
            Text(": "),
        ],
    )?;
    add_fields(to, &waiting.fields)?;
    add_parts(
        to,
        &[
            Text("waits for its "),
            Text(waits_name(waiting.waits_for)),
            Text("\n"),
        ],
    )
}

/// The lines of outstanding requests.
pub(crate) fn add_all_waiting(to: &mut Vec<u8>, waiting: &[Waiting]) -> Result<(), AllocError>
    ensures { OnOk result (to.new.items ≡ to.old.items ++ flat_map waiting_line waiting.now) }
{
    for it in waiting {
        add_waiting(to, it)?;
    }
    Ok(())
}
