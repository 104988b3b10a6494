//! The requests that are outstanding at the end, and what each waits for.

ghost use Rattle.std.specs.Prelude.{◌≡◌, List, IfOk};
ghost use Rattle.chi_flits.specs.Effects.{HasSeen};
ghost use Rattle.chi_flits.specs.declared.flit.Flit.{Flit};
ghost use Rattle.chi_watch_text.specs.Waiting.{first_waiting, lacks, waiting_of, waits_for};

use chi_events::Open;
use chi_flits::Port;
use chi_trace::RequestFields;
use std::alloc::{AllocError, Global};

/// How many outstanding requests are listed.
const MOST_LISTED: usize = 16;

/// What an outstanding request waits for.
///
/// - `Data`: its data, by whoever sent it.
/// - `Dbid`: the DBID that the home gives for its data. Only flits tell so.
/// - `Reply`: its completion.
#[derive(Clone, Copy, Debug, PartialEq, Eq)]
pub enum WaitsFor {
    Data,
    Dbid,
    Reply,
}

/// A request that is outstanding: its fields, when it was taken, and what it waits for.
#[derive(Clone, Copy, Debug)]
pub struct Waiting {
    pub fields: RequestFields,
    pub since: u64,
    pub waits_for: WaitsFor,
}

/// Whether the home is still to give a DBID for the data of an outstanding request.
fn lacks(port: &Port, request: &Open) -> bool
    ensures { (flits : List Flit) → HasSeen flits port.now → result ≡ lacks flits request.now }
{
    port.waits_for_dbid(request.fields.src, request.fields.txn, request.id)
}

/// Its reply, once its data have come; or its data, or the DBID by which they come.
fn waits_for(lacks_dbid: bool, request: &Open) -> WaitsFor
    ensures { result ≡ waits_for lacks_dbid request.now }
{
    if request.is_whole {
        WaitsFor::Reply
    } else if lacks_dbid {
        WaitsFor::Dbid
    } else {
        WaitsFor::Data
    }
}

/// An outstanding request, by what the port has seen.
fn waiting_of(port: &Port, request: &Open) -> Waiting
    ensures { (flits : List Flit) → HasSeen flits port.now → result ≡ waiting_of flits request.now }
{
    Waiting {
        fields: request.fields,
        since: request.start,
        waits_for: waits_for(lacks(port, request), request),
    }
}

/// The first of the outstanding requests, in the order in which they were taken.
pub(crate) fn first_waiting(
    alloc: Global,
    port: &Port,
    requests: &[Open],
) -> Result<Vec<Waiting>, AllocError>
    ensures { IfOk result (λ listed. (flits : List Flit) → HasSeen flits port.now → listed.items ≡ first_waiting flits requests.now) }
{
    let mut listed = Vec::new(alloc);
    let count = MOST_LISTED.min(requests.len());
    for request in &requests[..count] {
        listed.push(waiting_of(port, request))?;
    }
    Ok(listed)
}
