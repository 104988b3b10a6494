//! The operations of requests that are outstanding at a granule, and what holds one up.

ghost use Rattle.std.specs.Prelude.{◌≡◌, List, All, Some};
ghost use Rattle.std.specs.List.{list_any};
ghost use Rattle.std.specs.Map.{values_of};
ghost use Rattle.chi_flits.specs.Answers.{key};
ghost use Rattle.chi_flits.specs.Effects.{HasSeen, transaction_in, transfer_in};
ghost use Rattle.chi_flits.specs.Outstanding.{has_outstanding, has_unanswered, is_unanswered, is_unanswered_at, lacks_dbid, waits_for_answer, waits_for_data, waits_for_dbid};
ghost use Rattle.chi_flits.specs.declared.flit.Flit.{Flit};

use crate::answer::key;
use crate::port::Port;
use crate::response_faults::is_held;
use crate::transaction::Transaction;
use crate::transfer::Transfer;

impl Transaction {
    /// Whether the completion of an operation is still to come, or the DBID for its data.
    fn is_unanswered(&self, operation: u8) -> bool
        ensures { result ≡ is_unanswered self.now operation }
    {
        let is_answered = self.is_answered(self.request.quarter_at(operation));
        !(self.is_completed || is_answered) || (self.request.needs_data() && !self.has_dbid)
    }

    fn is_unanswered_at(&self, granule: u64, operation: u8) -> bool
        ensures { result ≡ is_unanswered_at granule self.now operation }
    {
        self.request.lies_at(granule, operation) && self.is_unanswered(operation)
    }

    fn has_unanswered(&self, granule: u64) -> bool
        ensures { result ≡ has_unanswered granule self.now }
    {
        (0..self.request.count()).any(|operation| self.is_unanswered_at(granule, operation))
    }

    /// Whether the operation with this number is of it, and it is still to be given a DBID for its data.
    fn lacks_dbid(&self, number: u64) -> bool
        ensures { result ≡ lacks_dbid number self.now }
    {
        self.place == number / 8 && self.request.needs_data() && !self.has_dbid
    }

    /// Whether the home is still to answer an operation of it at a granule.
    fn waits_for_answer(&self, granule: u64) -> bool
        ensures { result ≡ waits_for_answer granule self.now }
    {
        !self.is_dropped
            && !self.is_over()
            && self.request.is_told()
            && self.has_unanswered(granule)
    }
}

impl Transfer {
    /// Whether the data of an operation of it at a granule are still to be told.
    fn waits_for_data(&self, granule: u64) -> bool
        ensures { result ≡ waits_for_data granule self.now }
    {
        !self.is_dropped && is_held(self) && self.request.is_of_granule(granule)
    }
}

impl Port {
    /// Whether a request that took a TxnID waits for an answer at a granule.
    fn any_waits_for_answer(&self, granule: u64) -> bool
        ensures any { result ≡ list_any (λ t. waits_for_answer granule t) (values_of self.now.transactions) }
        ensures found { All (λ e. transaction_in self.now e.0 ≡ Some e.1) self.now.transactions }
    {
        self.transactions
            .values()
            .any(|held| held.waits_for_answer(granule))
    }

    /// Whether a request that was given a DBID waits for its data at a granule.
    fn any_waits_for_data(&self, granule: u64) -> bool
        ensures any { result ≡ list_any (λ w. waits_for_data granule w) (values_of self.now.transfers) }
        ensures found { All (λ e. transfer_in self.now e.0 ≡ Some e.1) self.now.transfers }
    {
        self.transfers
            .values()
            .any(|held| held.waits_for_data(granule))
    }

    /// Whether an operation at a granule is outstanding: a flit told its request, and it has neither ended nor was it dropped. A
    /// granule is an address without its three lowest bits. Ask before a word of the granule is told as the one at the end, since
    /// an operation that is outstanding may still write it. The clause speaks of any list of flits that the port may have taken, of
    /// which the newest stands first.
    ///
    /// ```
    /// if !port.has_outstanding(told.granule) {
    ///     watch.take(alloc, &Event { time, kind: EventKind::Final(told) })?;
    /// }
    /// ```
    pub fn has_outstanding(&self, granule: u64) -> bool
        ensures { (flits : List Flit) → HasSeen flits self.now → result ≡ has_outstanding granule flits }
    {
        self.any_waits_for_answer(granule) || self.any_waits_for_data(granule)
    }

    /// Whether an operation waits for its home: its request is of this node, took this TxnID last, and is still to be given a DBID
    /// for its data. `number` is that of the operation, as its events have it. Ask of one whose data are still to come, to say
    /// whether the home or the requester holds it up.
    ///
    /// ```
    /// let waits_for = if port.waits_for_dbid(src, txn, open.id) { "its DBID" } else { "its data" };
    /// ```
    pub fn waits_for_dbid(&self, src: u16, txn: u16, number: u64) -> bool
        ensures { (flits : List Flit) → HasSeen flits self.now → result ≡ waits_for_dbid (key src txn) number flits }
    {
        match self.transactions.get(&key(src, txn)) {
            Some(held) => held.lacks_dbid(number),
            None => false,
        }
    }
}
