//! Operations that are alike: no bin of traffic tells one that is open from the other.

ghost use Rattle.std.specs.Prelude.{◌≡◌, ◌<◌, All, length};
ghost use Rattle.std.specs.List.{list_any};
ghost use Rattle.chi_trace.specs.Explains.{at};
ghost use Rattle.chi_cover.specs.Open.{are_alike, outlasts};
ghost use Rattle.chi_cover.specs.Traffic.{transaction_of};

use crate::bin::Transaction;
use crate::number::transaction_number;
use chi_fields::Kind;
use chi_trace::Operation;

/// The transaction of a kind.
pub(crate) fn transaction_of(kind: Kind) -> Transaction
    ensures { result ≡ transaction_of kind }
{
    match kind {
        Kind::Read => Transaction::ReadNoSnp,
        Kind::Write => Transaction::WriteNoSnpPtl,
        Kind::Store(_) => Transaction::AtomicStore,
        Kind::Load(_) => Transaction::AtomicLoad,
        Kind::Swap => Transaction::AtomicSwap,
        Kind::Compare => Transaction::AtomicCompare,
    }
}

/// Whether two operations are of the same transaction and requester, and their operands are the same bytes.
#[tactic(auto, unfolding(crate::specs::Open::are_alike))]
fn are_alike(op: &Operation, other: &Operation) -> bool
    ensures { result ≡ are_alike op.now other.now }
{
    transaction_number(transaction_of(op.access.kind()))
        == transaction_number(transaction_of(other.access.kind()))
        && op.src == other.src
        && op.access.addr() == other.access.addr()
        && op.access.len() == other.access.len()
}

/// Whether an operation is alike to another, and ends no earlier.
pub(crate) fn outlasts(op: &Operation, other: &Operation) -> bool
    ensures { result ≡ outlasts op.now other.now }
{
    op.end >= other.end && are_alike(op, other)
}

/// Whether some operation at these places is alike to one, and ends no earlier.
pub(crate) fn is_outlasted(ops: &[Operation], places: &[usize], op: &Operation) -> bool
    requires { All (λ j. j < length ops.now) places.now }
    ensures { result ≡ list_any (λ j. outlasts (at ops.now j) op.now) places.now }
{
    for place in places {
        if outlasts(&ops[*place], op) {
            return true;
        }
    }
    false
}
