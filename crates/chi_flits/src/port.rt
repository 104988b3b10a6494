//! A home's port: what is known of each TxnID and each DBID, as flits come.

ghost use Rattle.std.specs.Prelude.{◌≡◌, ◌≢◌, List, [], ◌∷◌, None, Some, IfErr, IfOk};
ghost use Rattle.chi_flits.specs.Effects.{HasSeen};
ghost use Rattle.chi_flits.specs.Faults.{fault_by};
ghost use Rattle.chi_flits.specs.Told.{told_by};
ghost use Rattle.chi_flits.specs.declared.fault.FlitFault.{FlitFault};
ghost use Rattle.chi_flits.specs.declared.flit.Flit.{Flit};

use crate::fault::FlitFault;
use crate::flit::Flit;
use crate::transaction::Transaction;
use crate::transfer::Transfer;
use chi_events::EventKind;
use std::alloc::Global;
use std::collections::BTreeMap;
use std::marker::Model;

/// How many flits a port takes, so that the number of each operation that they tell is one of its own.
const MOST_FLITS: u64 = 1 << 61;

/// What is known at a home's port: of each TxnID and each DBID that was seen.
#[derive(Drop)]
pub struct Port {
    pub(crate) transactions: BTreeMap<u32, Transaction>,
    pub(crate) transfers: BTreeMap<u32, Transfer>,
    pub(crate) count: u64,
    pub(crate) time: u64,
}

impl Model for Port {
    ghost use Rattle.chi_flits.specs.Effects.{PortValue};

    ghost Value = { PortValue };

    ghost view = { λ p. record { transactions = p.transactions.entries; transfers = p.transfers.entries; count = p.count; time = p.time } };
}

impl Port {
    /// A port at which nothing was seen.
    ///
    /// ```
    /// let mut port = Port::new(alloc);
    /// ```
    pub fn new(alloc: Global) -> Port
        ensures { HasSeen [] result }
    {
        Port {
            transactions: BTreeMap::new(alloc),
            transfers: BTreeMap::new(alloc),
            count: 0,
            time: 0,
        }
    }

    /// Takes a flit, and answers the events that it tells, all at its time. Where it cannot come next nothing changes, and the fault
    /// says why. The clauses speak of any list of flits that the port may have taken, of which the newest stands first.
    ///
    /// ```
    /// for kind in &port.take(alloc, &flit)? {
    ///     watch.take(alloc, &Event { time: flit.time, kind: *kind })?;
    /// }
    /// ```
    pub fn take(&mut self, alloc: Global, flit: &Flit) -> Result<Vec<EventKind>, FlitFault>
        ensures seen { IfOk result (λ _. (flits : List Flit) → HasSeen flits self.old → HasSeen (flit.now ∷ flits) self.new) }
        ensures fits { IfOk result (λ _. (flits : List Flit) → HasSeen flits self.old → fault_by flits flit.now ≡ None) }
        ensures told { IfOk result (λ told. (flits : List Flit) → HasSeen flits self.old → told.items ≡ told_by flits flit.now.kind) }
        ensures fault { IfErr result (λ fault. fault ≢ FlitFault.Memory → (flits : List Flit) → HasSeen flits self.old → fault_by flits flit.now ≡ Some fault) }
        ensures failed { IfErr result (λ _. self.new ≡ self.old) }
    {
        if flit.time < self.time {
            return Err(FlitFault::TimeFalls);
        }
        if self.count >= MOST_FLITS {
            return Err(FlitFault::TooMany);
        }
        let told = self.take_kind(alloc, &flit.kind)?;
        self.count += 1;
        self.time = flit.time;
        Ok(told)
    }
}
