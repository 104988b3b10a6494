//! The requests that are outstanding, found by their numbers and by their granules.

ghost use Rattle.std.specs.Prelude.{◌≡◌, ◌≤◌, ◌==◌, ◌++◌, [], ◌∷◌, None, Some, IfOk, IfSome, OnErr, OnOk, length};
ghost use Rattle.std.specs.List.{list_any};
ghost use Rattle.chi_events.specs.Granules.{StartsBy, granule_of_request};
ghost use Rattle.chi_events.specs.Outstanding.{open_with};
ghost use Rattle.chi_events.specs.Requests.{Replaces};
ghost use Rattle.chi_events.specs.declared.outstanding.Open.{Open};

use crate::outstanding::Open;
use crate::starts::{Start, Starts, add_start, earliest_start, has_start, remove_start};
use lru::LruCache;
use std::alloc::{AllocError, Global};
use std::collections::HashMap;
use std::marker::Model;

/// The requests that are outstanding, in the order in which they were taken.
pub struct Requests {
    by_number: LruCache<u64, Open>,
    starts: Starts,
    alloc: Global,
}

impl Model for Requests {
    ghost use Rattle.std.specs.Prelude.{List};
    ghost use Rattle.chi_events.specs.Requests.{AreKept, requests_of};
    ghost use Rattle.chi_events.specs.declared.outstanding.Open.{Open};

    ghost Value = { List Open };

    ghost view = { λ r. requests_of r.by_number };

    ghost invariant = { λ r. AreKept r.by_number r.starts };
}

// By one call, so that the proof of what owns requests has one step for them where it ends.
impl Drop for Requests {
    fn drop(self) {
        let Requests {
            by_number: _by_number,
            starts: _starts,
            alloc: _,
        } = self;
    }
}

impl Requests {
    /// None are outstanding.
    pub(crate) fn new(alloc: Global) -> Result<Requests, AllocError>
        ensures { IfOk result (λ requests. requests ≡ []) }
    {
        Ok(Requests {
            by_number: LruCache::unbounded(alloc)?,
            starts: HashMap::new(alloc),
            alloc,
        })
    }

    /// How many there are.
    pub(crate) fn len(&self) -> usize
        ensures { result ≡ length self.now }
    {
        self.by_number.len()
    }

    /// The one with a number.
    pub(crate) fn with_number(&self, id: u64) -> Option<Open>
        ensures { result ≡ open_with id self.now }
    {
        let _count = self.by_number.len();
        self.by_number.peek(&id).copied()
    }

    /// Whether one is of this granule.
    pub(crate) fn is_open(&self, granule: u64) -> bool
        ensures { result ≡ list_any (λ p. granule_of_request p == granule) self.now }
    {
        has_start(&self.starts, granule)
    }

    /// A time at or before which each of this granule was taken, and at or before this one.
    pub(crate) fn earliest(&self, granule: u64, time: u64) -> u64
        ensures time { result ≤ time }
        ensures starts { StartsBy self.now granule result }
    {
        earliest_start(&self.starts, granule, time)
    }

    /// Takes one whose number is free.
    pub(crate) fn push(&mut self, request: Open) -> Result<(), AllocError>
        requires { open_with request.id self.old ≡ None }
        ensures taken { OnOk result (self.new ≡ self.old ++ request ∷ []) }
        ensures failed { OnErr result (self.new ≡ self.old) }
    {
        let _count = self.by_number.len();
        self.by_number.put(request.id, request)?;
        let start = Start {
            id: request.id,
            time: request.start,
        };
        let granule = request.fields.addr / 8;
        if add_start(self.alloc, &mut self.starts, granule, start).is_err() {
            self.by_number.pop(&request.id);
            return Err(AllocError);
        }
        Ok(())
    }

    /// Puts a request in the place of the one with its number, of the same granule and start.
    pub(crate) fn replace(&mut self, request: Open)
        requires { IfSome (open_with request.id self.old) (λ o. (granule_of_request request ≡ granule_of_request o) × (request.start ≡ o.start)) }
        ensures { (o : Open) → open_with request.id self.old ≡ Some o → Replaces o (request ∷ []) self.old self.new }
    {
        let _count = self.by_number.len();
        let Some(kept) = self.by_number.peek_mut(&request.id) else {
            return;
        };
        *kept = request;
    }

    /// Takes out the one with a number.
    pub(crate) fn remove(&mut self, id: u64)
        ensures { (o : Open) → open_with id self.old ≡ Some o → Replaces o [] self.old self.new }
    {
        let _count = self.by_number.len();
        if let Some(request) = self.by_number.pop(&id) {
            remove_start(&mut self.starts, request.fields.addr / 8, id);
        }
    }

    /// All of them.
    pub(crate) fn to_vec(&self, alloc: Global) -> Result<Vec<Open>, AllocError>
        ensures { IfOk result (λ requests. requests.items ≡ self.now) }
    {
        let mut requests = Vec::new(alloc);
        for (_, request) in self.by_number.iter() {
            requests.push(*request)?;
        }
        requests.reverse();
        Ok(requests)
    }
}
