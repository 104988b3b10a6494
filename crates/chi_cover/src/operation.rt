//! The bins of an operation by itself.

ghost use Rattle.std.specs.Int.{bit_at};
ghost use Rattle.std.specs.Option.{ForSome};
ghost use Rattle.std.specs.Prelude.{◌≡◌, ◌==◌, ◌+◌, ◌^◌, ◌<◌, ◌≤◌};
ghost use Rattle.chi_fields.specs.Access.{IsLen, lane_of};
ghost use Rattle.chi_lanes.specs.After.{same_bytes};
ghost use Rattle.chi_cover.specs.Added.{AreAdded};
ghost use Rattle.chi_cover.specs.Operations.{changes_sign, comparison_bin, enabled_as, enabled_lanes, enables_bin, is_add, is_negative, is_upper, kept_bin, operand_in, operation_bin, own_bins, results_of, sign_bin, wrapped_bin, wraps};

use crate::adding::{add_bin, add_some};
use crate::bin::{Bin, Enabled};
use crate::operand::{Values, operand_in, values_of};
use chi_fields::{Access, Kind, Op};
use chi_lanes::Reply;
use chi_trace::Operation;

/// The operand's length, in a byte.
fn length(access: &Access) -> u8
    ensures { result ≡ access.now.len }
{
    access.len() as u8
}

/// The bin of the operation's kind, byte order, length and lane.
fn operation_bin(op: &Operation) -> Bin
    ensures { result ≡ operation_bin op.now }
{
    Bin::Operand {
        kind: op.access.kind(),
        endian: op.access.endian(),
        len: length(&op.access),
        lane: op.access.lane() as u8,
    }
}

/// Whether the compare value stands in the upper half of its window.
fn is_upper(access: &Access) -> bool
    ensures { result ≡ is_upper access.now }
{
    let lane = access.lane();
    lane != lane - lane % (2 * access.len())
}

/// Whether the operand's bytes in a data packet are those that were sent.
fn has_sent(access: &Access, returned: &[u8; 16]) -> bool
    ensures { result ≡ same_bytes (operand_in access.now returned.now) (operand_in access.now access.now.lanes) }
{
    let found = operand_in(access, returned);
    let sent = operand_in(access, &access.lanes());
    found == sent
}

/// The bin of an AtomicCompare that returned data.
#[tactic(auto, unfolding(crate::specs::Operations::comparison_bin))]
fn comparison_bin(op: &Operation) -> Option<Bin>
    ensures { result ≡ comparison_bin op.now }
{
    match (op.access.kind(), op.reply) {
        (Kind::Compare, Some(Reply::CompData(returned))) => Some(Bin::Comparison {
            len: length(&op.access),
            upper: is_upper(&op.access),
            matched: has_sent(&op.access, &returned),
        }),
        _ => None,
    }
}

/// Whether a lane is enabled.
fn is_enabled(enables: u16, lane: usize) -> bool
    requires { lane < 16 }
    ensures { result ≡ (bit_at enables lane == 1) }
{
    (enables >> lane) & 1 == 1
}

/// How many lanes of the operand are enabled.
fn enabled_lanes(access: &Access) -> usize
    ensures { result ≡ enabled_lanes access.now }
{
    let enables = access.enables();
    let first = access.lane();
    let mut count = 0;
    for place in 0..access.len() {
        if is_enabled(enables, first + place) {
            count += 1;
        }
    }
    count
}

/// The bin of a write.
#[tactic(auto, unfolding(crate::specs::Operations::enables_bin))]
fn enables_bin(op: &Operation) -> Option<Bin>
    ensures { result ≡ enables_bin op.now }
{
    if op.access.kind() != Kind::Write {
        return None;
    }
    let count = enabled_lanes(&op.access);
    let enabled = if count == 0 {
        Enabled::NoLane
    } else if count == op.access.len() {
        Enabled::AllLanes
    } else {
        Enabled::SomeLanes
    };
    Some(Bin::Enables {
        len: length(&op.access),
        enabled,
    })
}

/// How many numbers so many bytes spell.
fn size(len: u8) -> u128
    requires { IsLen len }
    ensures { result ≡ 256 ^ len }
{
    match len {
        1 => 0x100,
        2 => 0x1_0000,
        4 => 0x1_0000_0000,
        8 => 0x1_0000_0000_0000_0000,
        _ => unreachable!(),
    }
}

/// Whether a number of so many bytes is negative in two's complement.
fn is_negative(len: u8, number: u64) -> bool
    requires { IsLen len }
    ensures { result ≡ is_negative len number }
{
    2 * u128::from(number) >= size(len)
}

/// The bin of an AtomicLoad that left the old value.
fn kept_bin(values: Values) -> Option<Bin>
    ensures { result ≡ kept_bin values }
{
    let Values { op, len, .. } = values;
    if values.new == values.old {
        Some(Bin::Kept { op, len })
    } else {
        None
    }
}

/// The bin of one that left a value of the other sign.
fn sign_bin(values: Values) -> Option<Bin>
    requires { IsLen values.len }
    ensures { result ≡ sign_bin values }
{
    let Values { op, len, .. } = values;
    if is_negative(len, values.old) != is_negative(len, values.new) {
        Some(Bin::ChangedSign { op, len })
    } else {
        None
    }
}

/// The bin of an addition whose sum has more bytes than the operand.
fn wrapped_bin(values: Values) -> Option<Bin>
    requires { IsLen values.len }
    ensures { result ≡ wrapped_bin values }
{
    let sum = u128::from(values.old) + u128::from(values.sent);
    if values.op == Op::Add && sum >= size(values.len) {
        Some(Bin::Wrapped { len: values.len })
    } else {
        None
    }
}

/// One more for each bin of an AtomicLoad's results.
fn add_results(counts: &mut [u64], values: Option<Values>)
    requires { ForSome values (λ v. IsLen v.len) }
    ensures { AreAdded (results_of values) counts.old counts.new }
{
    if let Some(values) = values {
        add_some(counts, kept_bin(values));
        add_some(counts, sign_bin(values));
        add_some(counts, wrapped_bin(values));
    }
}

/// One more for each bin of an operation by itself.
#[tactic(auto, unfolding(crate::specs::Operations::own_bins))]
pub(crate) fn add_own(counts: &mut [u64], op: &Operation)
    requires { op.now.access.addr + op.now.access.len ≤ 2 ^ 52 }
    ensures { AreAdded (own_bins op.now) counts.old counts.new }
{
    add_bin(counts, operation_bin(op));
    add_some(counts, comparison_bin(op));
    add_some(counts, enables_bin(op));
    add_results(counts, values_of(op));
}
