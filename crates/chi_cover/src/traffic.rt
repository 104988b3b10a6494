//! The bins of an operation among the others of its granule.

ghost use Rattle.std.specs.Prelude.{◌≡◌, ◌+◌, ◌^◌, ◌<◌, ◌≤◌, All, IfOk, OnOk, length};
ghost use Rattle.std.specs.List.{filter};
ghost use Rattle.chi_trace.specs.Explains.{IsTrace, at};
ghost use Rattle.chi_cover.specs.Added.{AreAdded};
ghost use Rattle.chi_cover.specs.Open.{AreOpen};
ghost use Rattle.chi_cover.specs.Traffic.{depth_of, has_requester, has_transaction, have_common_byte, overlap_bins_at, requester_bins_at, traffic_bins, transaction_of};

use crate::adding::add_bin;
use crate::alike::transaction_of;
use crate::bin::{Bin, Depth, Transaction};
use crate::kept::Kept;
use crate::number::transaction_number;
use crate::traffic_group::TRANSACTIONS;
use chi_fields::Access;
use chi_trace::Operation;
use std::alloc::{AllocError, Global};

/// How many operations are open, from one on.
fn depth_of(count: usize) -> Depth
    ensures { result ≡ depth_of count }
{
    match count {
        0 | 1 => Depth::One,
        2 => Depth::Two,
        3 | 4 => Depth::UpToFour,
        5..=8 => Depth::UpToEight,
        _ => Depth::More,
    }
}

/// Whether two operands have a byte in common.
fn have_common_byte(access: &Access, other: &Access) -> bool
    requires within { access.now.addr + access.now.len ≤ 2 ^ 52 }
    requires other_within { other.now.addr + other.now.len ≤ 2 ^ 52 }
    ensures { result ≡ have_common_byte access.now other.now }
{
    access.addr() < other.addr() + other.len() as u64
        && other.addr() < access.addr() + access.len() as u64
}

/// Those of these places whose operations' operands have a byte in common with that of the operation at a place.
fn with_common_byte(
    alloc: Global,
    ops: &[Operation],
    places: &[usize],
    op: &Operation,
) -> Result<Vec<usize>, AllocError>
    requires traced { IsTrace ops.now }
    requires within { op.now.access.addr + op.now.access.len ≤ 2 ^ 52 }
    requires places { All (λ j. j < length ops.now) places.now }
    ensures { IfOk result (λ overlapping. overlapping.items ≡ filter (λ j. have_common_byte (at ops.now j).access op.now.access) places.now) }
{
    let mut overlapping = Vec::new(alloc);
    for place in places {
        if have_common_byte(&ops[*place].access, &op.access) {
            overlapping.push(*place)?;
        }
    }
    Ok(overlapping)
}

/// Whether some operation at these places is of a transaction.
fn has_transaction(ops: &[Operation], places: &[usize], transaction: Transaction) -> bool
    requires { All (λ j. j < length ops.now) places.now }
    ensures { result ≡ has_transaction ops.now places.now transaction }
{
    let number = transaction_number(transaction);
    for place in places {
        if transaction_number(transaction_of(ops[*place].access.kind())) == number {
            return true;
        }
    }
    false
}

/// Whether some operation at these places is of a requester, or some is of another.
fn has_requester(ops: &[Operation], places: &[usize], src: u16, same: bool) -> bool
    requires { All (λ j. j < length ops.now) places.now }
    ensures { result ≡ has_requester ops.now places.now src same }
{
    for place in places {
        if (ops[*place].src == src) == same {
            return true;
        }
    }
    false
}

/// One more for the bin of each transaction that one of the operations at these places is of.
fn add_overlaps(counts: &mut [u64], ops: &[Operation], places: &[usize], place: usize)
    requires place { place < length ops.now }
    requires places { All (λ j. j < length ops.now) places.now }
    ensures { AreAdded (overlap_bins_at ops.now place places.now) counts.old counts.new }
{
    let later = transaction_of(ops[place].access.kind());
    for earlier in TRANSACTIONS {
        if has_transaction(ops, places, earlier) {
            add_bin(counts, Bin::Overlap { earlier, later });
        }
    }
}

/// One more for the bins of the requesters of the operations at these places.
fn add_requesters(counts: &mut [u64], ops: &[Operation], places: &[usize], place: usize)
    requires place { place < length ops.now }
    requires places { All (λ j. j < length ops.now) places.now }
    ensures { AreAdded (requester_bins_at ops.now place places.now) counts.old counts.new }
{
    for same in [true, false] {
        if has_requester(ops, places, ops[place].src, same) {
            add_bin(counts, Bin::Requester { same });
        }
    }
}

/// One more for each bin of the operation at a place, by what was kept of those of its granule that were open when it started.
#[tactic(auto, unfolding(crate::specs::Traffic::traffic_bins))]
pub(crate) fn add_traffic(
    alloc: Global,
    counts: &mut [u64],
    ops: &[Operation],
    before: &Kept,
    place: usize,
) -> Result<(), AllocError>
    requires traced { IsTrace ops.now }
    requires place { place < length ops.now }
    requires before { AreOpen ops.now place before.now }
    ensures { OnOk result (AreAdded (traffic_bins ops.now place) counts.old counts.new) }
{
    let overlapping = with_common_byte(alloc, ops, &before.places, &ops[place])?;
    add_bin(counts, Bin::Open(depth_of(before.ends.len() + 1)));
    add_overlaps(counts, ops, &overlapping, place);
    add_requesters(counts, ops, &overlapping, place);
    Ok(())
}
