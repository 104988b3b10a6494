//! The values of an AtomicLoad: the old one, the one that was sent, and the one that it leaves.

ghost use Rattle.std.specs.Prelude.{◌≡◌, ◌+◌, ◌^◌, ◌<◌, ◌≤◌, IfSome};
ghost use Rattle.chi_fields.specs.Access.{IsLen};
ghost use Rattle.chi_fields.specs.declared.kind.Kind.{Kind};
ghost use Rattle.chi_lanes.specs.Bytes.{little_bytes, number_in};
ghost use Rattle.chi_lanes.specs.Combination.{combine};
ghost use Rattle.chi_cover.specs.Operations.{operand_in, values_as, values_of};

use chi_fields::{Access, Kind, Op};
use chi_lanes::{Reply, apply, compare_half, extract, insert, swap_order};
use chi_trace::Operation;

/// The values of an AtomicLoad that returned data, in its byte order.
#[derive(Clone, Copy)]
pub(crate) struct Values {
    pub op: Op,
    pub len: u8,
    pub old: u64,
    pub sent: u64,
    pub new: u64,
}

/// The number that `len` bytes spell in a byte order, if `value` is their little-endian number.
fn ordered(endian: bool, len: usize, value: u64) -> u64
    requires part { IsLen len }
    requires fits { value < 256 ^ len }
    ensures { result ≡ number_in endian (little_bytes len value) }
{
    if endian {
        swap_order(value, len)
    } else {
        value
    }
}

/// The little-endian number of the operand's bytes in a data packet.
pub(crate) fn operand_in(access: &Access, lanes: &[u8; 16]) -> u64
    ensures below { result < 256 ^ access.now.len }
    ensures bytes { little_bytes access.now.len result ≡ operand_in access.now lanes.now }
{
    compare_half(lanes, access.lane(), access.len())
}

/// The little-endian number of the bytes that an AtomicLoad leaves in its operand, of those that it finds.
fn left(op: Op, access: &Access, returned: &[u8; 16], old: u64) -> u64
    requires kind { access.now.kind ≡ Kind.Load op }
    requires within { access.now.addr + access.now.len ≤ 2 ^ 52 }
    requires below { old < 256 ^ access.now.len }
    requires bytes { little_bytes access.now.len old ≡ operand_in access.now returned.now }
    ensures below { result < 256 ^ access.now.len }
    ensures bytes { little_bytes access.now.len result ≡ combine op access.now.endian (operand_in access.now returned.now) (operand_in access.now access.now.lanes) }
{
    let first = (access.addr() % 8) as usize;
    let word = insert(0, first, access.len(), old);
    let (after, _reply) = apply(word, access);
    extract(after, first, access.len())
}

/// The values of an AtomicLoad at this access that returned these data.
fn values_at(op: Op, access: &Access, returned: &[u8; 16]) -> Values
    requires kind { access.now.kind ≡ Kind.Load op }
    requires within { access.now.addr + access.now.len ≤ 2 ^ 52 }
    ensures value { result ≡ values_as op access.now returned.now }
    ensures length { IsLen result.len }
{
    let endian = access.endian();
    let len = access.len();
    let old = operand_in(access, returned);
    let sent = operand_in(access, &access.lanes());
    let new = left(op, access, returned, old);
    Values {
        op,
        len: len as u8,
        old: ordered(endian, len, old),
        sent: ordered(endian, len, sent),
        new: ordered(endian, len, new),
    }
}

/// The values of an operation, where it is an AtomicLoad that returned data.
#[tactic(auto, unfolding(crate::specs::Operations::values_of))]
pub(crate) fn values_of(op: &Operation) -> Option<Values>
    requires { op.now.access.addr + op.now.access.len ≤ 2 ^ 52 }
    ensures value { result ≡ values_of op.now }
    ensures length { IfSome result (λ values. IsLen values.len) }
{
    match (op.access.kind(), op.reply) {
        (Kind::Load(made), Some(Reply::CompData(returned))) => {
            Some(values_at(made, &op.access, &returned))
        }
        _ => None,
    }
}
