//! What is still to come to a request that took a TxnID.

ghost use Rattle.std.specs.Prelude.{◌≡◌};
ghost use Rattle.chi_flits.specs.Faults.{has_all_answers, has_answers, is_answered, is_complete, is_over};

use crate::transaction::Transaction;

impl Transaction {
    /// Whether data were answered for a quarter.
    pub(crate) fn is_answered(&self, quarter: usize) -> bool
        ensures { result ≡ is_answered self.now quarter }
    {
        quarter < 4 && self.answered[quarter]
    }

    pub(crate) fn has_answers(&self) -> bool
        ensures { result ≡ has_answers self.now }
    {
        let request = &self.request;
        (0..request.count()).any(|operation| self.is_answered(request.quarter_at(operation)))
    }

    fn has_all_answers(&self) -> bool
        ensures { result ≡ has_all_answers self.now }
    {
        let request = &self.request;
        (0..request.count()).all(|operation| self.is_answered(request.quarter_at(operation)))
    }

    fn is_complete(&self) -> bool
        ensures { result ≡ is_complete self.now }
    {
        self.is_completed || (self.request.answers_data() && self.has_all_answers())
    }

    /// Whether nothing more is to come to its TxnID.
    pub(crate) fn is_over(&self) -> bool
        ensures { result ≡ is_over self.now }
    {
        self.is_retried || (self.is_complete() && (self.has_dbid || !self.request.needs_data()))
    }
}
