//! The request that holds a TxnID.

ghost use Rattle.std.specs.Prelude.{◌≡◌, List, option_map};
ghost use Rattle.chi_flits.specs.Answers.{key as key_of};
ghost use Rattle.chi_flits.specs.Effects.{HasSeen};
ghost use Rattle.chi_flits.specs.Held.{held_of};
ghost use Rattle.chi_flits.specs.History.{transaction};
ghost use Rattle.chi_flits.specs.declared.flit.Flit.{Flit};

use crate::answer::key;
use crate::port::Port;

/// The request that took a TxnID last: how many flits came before it, which is an eighth of the number of each of its operations;
/// whether it is told; and whether it was dropped by its data, which were cancelled, or in error.
#[derive(Clone, Copy, Debug)]
pub struct Held {
    pub place: u64,
    pub is_told: bool,
    pub is_dropped: bool,
}

impl Port {
    /// The request that took this TxnID of a requester last, if one did. The clause speaks of any list of flits that the port may
    /// have taken, of which the newest stands first.
    ///
    /// ```
    /// let is_told = port.held(3, 4)?.is_told;
    /// ```
    pub fn held(&self, src: u16, txn: u16) -> Option<Held>
        ensures { (flits : List Flit) → HasSeen flits self.now → result ≡ option_map held_of (transaction (key_of src txn) flits) }
    {
        let held = self.transactions.get(&key(src, txn))?;
        Some(Held {
            place: held.place,
            is_told: held.request.is_told(),
            is_dropped: held.is_dropped,
        })
    }
}
