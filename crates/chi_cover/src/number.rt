//! The number of each bin, from 0 on.

ghost use Rattle.std.specs.Prelude.{◌≡◌};
ghost use Rattle.chi_cover.specs.Numbers.{bit, depth_number, enabled_number, kind_number, length_number, number_of, place_number, transaction_number};

use crate::bin::{Bin, Depth, Enabled, Transaction};
use chi_fields::Kind;

fn kind_number(kind: Kind) -> usize
    ensures { result ≡ kind_number kind }
{
    match kind {
        Kind::Read => 0,
        Kind::Write => 1,
        Kind::Store(op) => 2 + usize::from(op.number()),
        Kind::Load(op) => 10 + usize::from(op.number()),
        Kind::Swap => 18,
        Kind::Compare => 19,
    }
}

fn length_number(len: u8) -> usize
    ensures { result ≡ length_number len }
{
    match len {
        1 => 0,
        2 => 1,
        4 => 2,
        _ => 3,
    }
}

fn place_number(len: u8, lane: u8) -> usize
    ensures { result ≡ place_number len lane }
{
    let lane = usize::from(lane);
    match len {
        1 => lane,
        2 => 16 + lane / 2,
        4 => 24 + lane / 4,
        _ => 28 + lane / 8,
    }
}

fn enabled_number(enabled: Enabled) -> usize
    ensures { result ≡ enabled_number enabled }
{
    enabled as usize
}

fn depth_number(depth: Depth) -> usize
    ensures { result ≡ depth_number depth }
{
    depth as usize
}

/// A transaction, by number.
pub(crate) fn transaction_number(transaction: Transaction) -> usize
    ensures { result ≡ transaction_number transaction }
{
    transaction as usize
}

/// The number of a bin.
pub(crate) fn number(bin: Bin) -> usize
    ensures { result ≡ number_of bin }
{
    match bin {
        Bin::Operand {
            kind,
            endian,
            len,
            lane,
        } => 60 * kind_number(kind) + 30 * usize::from(endian) + place_number(len, lane),
        Bin::Comparison {
            len,
            upper,
            matched,
        } => 1201 + 4 * length_number(len) + 2 * usize::from(upper) - usize::from(matched),
        Bin::Enables { len, enabled } => {
            1216 + (3 * length_number(len) + enabled_number(enabled)).saturating_sub(1)
        }
        Bin::Kept { op, len } => 1227 + 4 * usize::from(op.number()) + length_number(len),
        Bin::ChangedSign { op, len } => 1259 + 4 * usize::from(op.number()) + length_number(len),
        Bin::Wrapped { len } => 1291 + length_number(len),
        Bin::Open(depth) => 1295 + depth_number(depth),
        Bin::Overlap { earlier, later } => {
            1300 + 6 * transaction_number(earlier) + transaction_number(later)
        }
        Bin::Requester { same } => 1337 - usize::from(same),
        Bin::Sequence { earlier, later } => {
            1338 + 6 * transaction_number(earlier) + transaction_number(later)
        }
        Bin::LineSequence { earlier, later } => {
            1374 + 6 * transaction_number(earlier) + transaction_number(later)
        }
    }
}
