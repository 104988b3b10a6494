//! The requests of a trace: the operation that was observed of each, or why a home refused it.

ghost use Rattle.std.specs.Prelude.{◌≡◌, ◌≢◌, IfOk, IfErr, OnOk, Ok, Err};
ghost use Rattle.serde_json.specs.View.{items_view, view};
ghost use Rattle.chi_json.specs.Members.{or_else};
ghost use Rattle.chi_reading.specs.declared.fault.TraceFault.TheVariants.{InRequest};
ghost use Rattle.chi_trace.specs.Explains.{IsOperation};
ghost use Rattle.chi_reading.specs.Requests.{Completed, all_completed, completed_at, completed_by, completed_of, joined, none_completed, observed_of, one_accepted, one_refused};

use crate::fault::{MOST_OPERATIONS, RequestFault, TraceFault};
use crate::refused::refused;
use crate::stated::{Outcome, Stated, stated_at};
use chi_fields::{Refusal, Region};
use chi_lanes::Reply;
use chi_trace::{Operation, access};
use serde_json::Value;
use std::alloc::{AllocError, Global};
use std::marker::Model;

/// The operations of the requests that were accepted, and why the others were refused.
#[derive(Drop)]
pub(crate) struct Found {
    pub operations: Vec<Operation>,
    pub refusals: Vec<Refusal>,
}

impl Model for Found {
    ghost use Rattle.std.specs.Prelude.{All};
    ghost use Rattle.chi_trace.specs.Explains.{IsOperation};
    ghost use Rattle.chi_reading.specs.Requests.{Completed};

    ghost Value = { Completed };

    ghost view = { λ f. record { operations = f.operations.items; refusals = f.refusals.items } };

    // Each operation is such as can be observed.
    ghost invariant = { λ f. All IsOperation f.operations.items };
}

impl Found {
    /// No request.
    pub fn none(alloc: Global) -> Found
        ensures { result ≡ none_completed }
    {
        Found {
            operations: Vec::new(alloc),
            refusals: Vec::new(alloc),
        }
    }

    /// Adds the operation of a request that was accepted.
    fn add_accepted(&mut self, operation: Operation) -> Result<(), AllocError>
        requires { IsOperation operation }
        ensures { OnOk result (self.new ≡ joined self.old (one_accepted operation)) }
    {
        self.operations.push(operation)?;
        Ok(())
    }

    /// Adds one that was refused.
    fn add_refused(&mut self, reason: Refusal) -> Result<(), AllocError>
        ensures { OnOk result (self.new ≡ joined self.old (one_refused reason)) }
    {
        self.refusals.push(reason)?;
        Ok(())
    }
}

/// The operation that was observed of a request, with this reply.
#[tactic(auto, unfolding(crate::specs::Requests::observed_of))]
fn observed(
    region: Option<Region>,
    stated: Stated,
    reply: Option<Reply>,
) -> Result<Operation, RequestFault>
    ensures observed { result ≡ observed_of region stated reply }
    ensures operation { IfOk result IsOperation }
{
    let access = match access(&stated.fields, &region) {
        Ok(access) => access,
        Err(refusal) => return Err(RequestFault::Refused(refusal)),
    };
    if stated.end < stated.start {
        return Err(RequestFault::EndsBeforeStart);
    }
    Ok(
        stated
            .fields
            .operation(access, stated.start, stated.end, reply),
    )
}

/// What was found of the request at a place: its fault is the trace's.
fn in_request<T>(place: usize, found: Result<T, RequestFault>) -> Result<T, TraceFault>
    ensures { result ≡ or_else (InRequest place) found }
{
    match found {
        Ok(value) => Ok(value),
        Err(fault) => Err(TraceFault::InRequest { place, fault }),
    }
}

/// Adds what came of the request at a place.
pub(crate) fn add_stated(
    found: &mut Found,
    place: usize,
    region: &Option<Region>,
    stated: Stated,
) -> Result<(), TraceFault>
    ensures ok { OnOk result ((one : Completed) × (completed_by place region.now stated stated.outcome ≡ Ok one) × (found.new ≡ joined found.old one)) }
    ensures fault { IfErr result (λ f. f ≢ TraceFault.Memory → completed_by place region.now stated stated.outcome ≡ Err f) }
{
    match stated.outcome {
        Outcome::Accepted(reply) => {
            let operation = in_request(place, observed(*region, stated, reply))?;
            found.add_accepted(operation)?;
        }
        Outcome::Refused(reason) => {
            let refusal = in_request(place, refused(region, &stated, reason))?;
            found.add_refused(refusal)?;
        }
    }
    Ok(())
}

/// Adds what the element at a place is.
#[tactic(auto, unfolding(crate::specs::Requests::completed_at))]
fn add_request(
    found: &mut Found,
    place: usize,
    region: &Option<Region>,
    value: &Value,
) -> Result<(), TraceFault>
    ensures ok { OnOk result ((one : Completed) × (completed_at place region.now (view value.now) ≡ Ok one) × (found.new ≡ joined found.old one)) }
    ensures fault { IfErr result (λ f. f ≢ TraceFault.Memory → completed_at place region.now (view value.now) ≡ Err f) }
{
    let stated = in_request(place, stated_at(place, value))?;
    add_stated(found, place, region, stated)
}

/// What some elements are.
#[tactic(auto, unfolding(crate::specs::Requests::completed_of))]
fn completed(alloc: Global, list: &[Value], region: &Option<Region>) -> Result<Found, TraceFault>
    ensures ok { IfOk result (λ found. completed_of 0 region.now (items_view list.now) ≡ Ok found) }
    ensures fault { IfErr result (λ f. f ≢ TraceFault.Memory → completed_of 0 region.now (items_view list.now) ≡ Err f) }
{
    let mut found = Found::none(alloc);
    for (place, value) in list.iter().enumerate() {
        add_request(&mut found, place, region, value)?;
    }
    Ok(found)
}

/// What the elements of an array of at most 1,048,576 are.
#[tactic(auto, unfolding(crate::specs::Requests::all_completed), using(crate::proofs::Elements::counted, crate::proofs::Elements::within))]
pub(crate) fn all_completed(
    alloc: Global,
    list: &[Value],
    region: &Option<Region>,
) -> Result<Found, TraceFault>
    ensures ok { IfOk result (λ found. all_completed region.now (items_view list.now) ≡ Ok found) }
    ensures fault { IfErr result (λ f. f ≢ TraceFault.Memory → all_completed region.now (items_view list.now) ≡ Err f) }
{
    if list.len() > MOST_OPERATIONS {
        return Err(TraceFault::TooManyRequests);
    }
    completed(alloc, list, region)
}
