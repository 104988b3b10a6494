//! What follows a request: whose it is, and whether it tells an error.

ghost use Rattle.std.specs.Prelude.{◌≡◌};
ghost use Rattle.chi_flits.specs.Answers.{drops, is_error, key};

use crate::flit::DataFlit;
use crate::opcode::is_cancel;

/// A node, and a TxnID or a DBID, as one number.
pub(crate) fn key(node: u16, number: u16) -> u32
    ensures { result ≡ key node number }
{
    u32::from(node) * 65536 + u32::from(number)
}

/// Whether a completion tells an error.
pub(crate) fn is_error(resp_err: u8) -> bool
    ensures { result ≡ is_error resp_err }
{
    2 <= resp_err
}

impl DataFlit {
    /// Whether it is write data that write nothing.
    pub(crate) fn drops(&self) -> bool
        ensures { result ≡ drops self.now }
    {
        is_cancel(self.opcode) || is_error(self.resp_err)
    }
}
