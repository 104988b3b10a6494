//! A request as members of a JSON object, with the names that a trace has for them.

ghost use Rattle.std.specs.Prelude.{◌≡◌, ◌++◌, OnOk};
ghost use Rattle.chi_page.specs.Objects.{request_members};

use chi_fields::op_name;
use chi_text::Part::{Address, Number, Text};
use chi_text::add_parts;
use chi_trace::RequestFields;
use std::alloc::AllocError;

/// The number of a request in the text, whose it is, its opcode with its name, its size and its address, as members of a JSON object.
///
/// ```
/// add_request_members(&mut text, &fields)?; // "request":0,"src":1,"txn":1,"op":48,"name":"AtomicLoad.ADD","size":3,"addr":"0000000000001008"
/// ```
#[tactic(auto, unfolding(crate::specs::Objects::request_members))]
pub fn add_request_members(to: &mut Vec<u8>, fields: &RequestFields) -> Result<(), AllocError>
    ensures { OnOk result (to.new.items ≡ to.old.items ++ request_members fields.now) }
{
    add_parts(
        to,
        &[
            Text("\"request\":"),
            Number(fields.number),
            Text(",\"src\":"),
            Number(u64::from(fields.src)),
            Text(",\"txn\":"),
            Number(u64::from(fields.txn)),
            Text(",\"op\":"),
            Number(u64::from(fields.opcode)),
            Text(",\"name\":\""),
            Text(op_name(fields.opcode)),
            Text("\",\"size\":"),
            Number(u64::from(fields.size)),
            Text(",\"addr\":\""),
            Address(fields.addr),
            Text("\""),
        ],
    )
}
