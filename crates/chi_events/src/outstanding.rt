//! The requests that are outstanding, as events come.

ghost use Rattle.std.specs.Prelude.{◌≡◌, ◌≢◌, ◌≤◌, ◌==◌, ℕ, [], ◌∷◌, ◌++◌, List, All, None, Some, IfErr, IfOk, IfSome, option_map, option_to_list, length, IsPermutation};
ghost use Rattle.std.specs.List.{list_any};
ghost use Rattle.chi_trace.specs.declared.operation.Operation.{Operation};
ghost use Rattle.chi_events.specs.declared.event.Event.{Event};
ghost use Rattle.chi_events.specs.Granules.{StartsBy, granule_of_request};
ghost use Rattle.chi_events.specs.Operations.{refusals_told};
ghost use Rattle.chi_events.specs.Outstanding.{IsEndOf, IsEndOfAbout, IsOpen, StaysOrStarts, Tells, fault_of, open_operation, refusal_by, request_about};

use crate::apply_event::{apply_event, refusal_by, request_about};
use crate::bounds::event_fits;
use crate::event::Event;
use crate::fault::EventFault;
use crate::requests::Requests;
use chi_fields::{Access, Refusal};
use chi_lanes::Reply;
use chi_trace::{Operation, RequestFields};
use std::alloc::{AllocError, Global};
use std::marker::Model;

/// An outstanding request. `is_whole` says that its data have come, or that it needs none; `access` is its access from then on.
/// `refusal` is why a home of all addresses refuses it, as far as that is decided: not by its byte enables, before its data have
/// come. `completion` is there once it has left, and `Some(None)` where it does not say what was done.
#[derive(Clone, Copy, Debug)]
pub struct Open {
    pub id: u64,
    pub start: u64,
    pub fields: RequestFields,
    pub is_whole: bool,
    pub refusal: Option<Refusal>,
    pub access: Option<Access>,
    pub completion: Option<Option<Reply>>,
}

impl Open {
    /// The operation that it is, if its data have come and no home refuses it: one that is open.
    ///
    /// ```
    /// let op = open.operation();
    /// ```
    pub fn operation(&self) -> Option<Operation>
        ensures { result ≡ open_operation self.now }
    {
        let access = self.access?;
        Some(self.fields.operation(access, self.start, u64::MAX, None))
    }
}

/// The requests that are outstanding, as events come.
///
/// ```
/// let mut outstanding = Outstanding::new(alloc)?;
/// for event in &events {
///     if let Some(op) = outstanding.take(event)? {
///         show(&op);
///     }
/// }
/// ```
#[derive(Drop)]
pub struct Outstanding {
    requests: Requests,
    time: u64,
}

impl Model for Outstanding {
    ghost use Rattle.std.specs.Prelude.{All};
    ghost use Rattle.chi_events.specs.Outstanding.{IsOpen, OutstandingValue};

    ghost Value = { OutstandingValue };

    ghost view = { λ o. record { requests = o.requests; time = o.time } };

    ghost invariant = { λ o. All (IsOpen o.time) o.requests };
}

impl Outstanding {
    /// No request is outstanding, before any event.
    ///
    /// ```
    /// let outstanding = Outstanding::new(alloc)?;
    /// ```
    pub fn new(alloc: Global) -> Result<Outstanding, AllocError>
        ensures tells { IfOk result (Tells [] []) }
        ensures none { IfOk result (λ o. (o.requests ≡ []) × (o.time ≡ 0)) }
    {
        Ok(Outstanding {
            requests: Requests::new(alloc)?,
            time: 0,
        })
    }

    /// Takes an event, where it can come next, and answers the operation that ended by it, if one did.
    ///
    /// ```
    /// if let Some(op) = outstanding.take(&event)? {
    ///     show(&op);
    /// }
    /// ```
    pub fn take(&mut self, event: &Event) -> Result<Option<Operation>, EventFault>
        ensures tells { IfOk result (λ ended. (events : List Event) (past : List Operation) → Tells events past self.old → Tells (events ++ event.now ∷ []) (past ++ option_to_list ended) self.new) }
        ensures refusals { IfOk result (λ ended. (events : List Event) (past : List Operation) → Tells events past self.old → IsPermutation (refusals_told (events ++ event.now ∷ [])) (refusals_told events ++ option_to_list (refusal_by self.old.requests event.now.kind))) }
        ensures taken { IfOk result (λ ended. fault_of self.old event.now ≡ None) }
        ensures fault { IfErr result (λ fault. fault ≢ EventFault.Memory → fault_of self.old event.now ≡ Some fault) }
        ensures failed { IfErr result (λ fault. self.new ≡ self.old) }
        ensures time { IfOk result (λ ended. self.new.time ≡ event.now.time) }
        ensures ended { IfOk result (λ ended. IfSome ended (IsEndOf self.old.requests event.now.time)) }
        ensures about { IfOk result (λ ended. IfSome ended (IsEndOfAbout self.old.requests event.now.kind)) }
        ensures requests { IfOk result (λ ended. All (StaysOrStarts self.old.requests event.now) self.new.requests) }
    {
        if event.time < self.time {
            return Err(EventFault::TimeFalls);
        }
        event_fits(event);
        let ended = apply_event(&mut self.requests, event.time, &event.kind)?;
        self.time = event.time;
        Ok(ended)
    }

    /// The outstanding request that an event is about, as it was taken, where it is about one.
    ///
    /// ```
    /// let addr = outstanding.about(&event)?.addr;
    /// ```
    pub fn about(&self, event: &Event) -> Option<RequestFields>
        ensures { result ≡ option_map (λ o. o.fields) (request_about self.now.requests event.now.kind) }
    {
        match request_about(&self.requests, &event.kind) {
            Some(request) => Some(request.fields),
            None => None,
        }
    }

    /// Why a home refused a request, where the event tells that one did: the reason that is told, or else the one for which a
    /// home of all addresses refuses the request.
    ///
    /// ```
    /// if let Some(reason) = outstanding.refusal(&event) {
    ///     count(reason);
    /// }
    /// ```
    pub fn refusal(&self, event: &Event) -> Option<Refusal>
        ensures { result ≡ refusal_by self.now.requests event.now.kind }
    {
        refusal_by(&self.requests, &event.kind)
    }

    /// How many requests are outstanding.
    ///
    /// ```
    /// let is_quiet = outstanding.count() == 0;
    /// ```
    pub fn count(&self) -> usize
        ensures count { result ≡ length self.now.requests }
        ensures are_open { All (IsOpen self.now.time) self.now.requests }
    {
        self.requests.len()
    }

    /// Whether a request of the granule with this number is outstanding.
    ///
    /// ```
    /// let may_change = outstanding.is_open(addr / 8);
    /// ```
    pub fn is_open(&self, granule: u64) -> bool
        ensures { result ≡ list_any (λ p. granule_of_request p == granule) self.now.requests }
    {
        self.requests.is_open(granule)
    }

    /// A time at or before which each outstanding request of the granule with this number was taken, and at or before this one.
    ///
    /// ```
    /// let since = outstanding.earliest(addr / 8, now);
    /// ```
    pub fn earliest(&self, granule: u64, time: u64) -> u64
        ensures time { result ≤ time }
        ensures starts { StartsBy self.now.requests granule result }
    {
        self.requests.earliest(granule, time)
    }

    /// The requests that are outstanding, in the order in which they were taken.
    ///
    /// ```
    /// for request in &outstanding.requests(alloc)? {
    ///     show(request);
    /// }
    /// ```
    pub fn requests(&self, alloc: Global) -> Result<Vec<Open>, AllocError>
        ensures requests { IfOk result (λ requests. requests.items ≡ self.now.requests) }
        ensures are_open { All (IsOpen self.now.time) self.now.requests }
    {
        self.requests.to_vec(alloc)
    }
}
