//! The names of bins.

ghost use Rattle.std.specs.Prelude.{◌≡◌, ◌++◌, OnOk, codes};
ghost use Rattle.chi_fields.specs.Opcode.{kind_name};
ghost use Rattle.chi_cover.specs.Names.{bin_name, bytes_text, depth_text, enabled_text, half_text, matched_text, order_text, overlap_text, requester_text, row_name, sequence_text};

use crate::bin::{Bin, Depth, Enabled, Transaction};
use chi_fields::{Kind, Op};
use chi_text::Part::{Number, Text};
use chi_text::add_parts;
use std::alloc::AllocError;

fn depth_name(depth: Depth) -> &'static str
    ensures { result.now ≡ depth_text depth }
{
    match depth {
        Depth::One => "open 1",
        Depth::Two => "open 2",
        Depth::UpToFour => "open 3 to 4",
        Depth::UpToEight => "open 5 to 8",
        Depth::More => "open more than 8",
    }
}

/// How many byte enables are 1.
fn enabled_name(enabled: Enabled) -> &'static str
    ensures { result.now ≡ enabled_text enabled }
{
    match enabled {
        Enabled::NoLane => "none",
        Enabled::SomeLanes => "some",
        Enabled::AllLanes => "all",
    }
}

/// The half of a window in which a compare value stands.
fn half_name(upper: bool) -> &'static str
    ensures { result.now ≡ half_text upper }
{
    if upper { "upper" } else { "lower" }
}

/// Whether an AtomicCompare has matched.
fn matched_name(matched: bool) -> &'static str
    ensures { result.now ≡ matched_text matched }
{
    if matched { "matched" } else { "failed" }
}

/// A byte order.
pub(crate) fn order_name(endian: bool) -> &'static str
    ensures { result.now ≡ order_text endian }
{
    if endian { "big" } else { "little" }
}

fn requester_name(same: bool) -> &'static str
    ensures { result.now ≡ requester_text same }
{
    if same {
        "of the same requester"
    } else {
        "of another requester"
    }
}

fn add_bytes(to: &mut Vec<u8>, len: u8) -> Result<(), AllocError>
    ensures { OnOk result (to.new.items ≡ to.old.items ++ bytes_text len) }
{
    if len == 1 {
        add_parts(to, &[Text("1 byte")])
    } else {
        add_parts(to, &[Number(u64::from(len)), Text(" bytes")])
    }
}

fn add_operation_name(
    to: &mut Vec<u8>,
    kind: Kind,
    endian: bool,
    len: u8,
    lane: u8,
) -> Result<(), AllocError>
    ensures { OnOk result (to.new.items ≡ to.old.items ++ bin_name (Bin.Operand kind endian len lane)) }
{
    add_parts(
        to,
        &[
            Text(kind.name()),
            Text(", "),
            Text(order_name(endian)),
            Text("-endian, "),
        ],
    )?;
    add_bytes(to, len)?;
    add_parts(to, &[Text(", lane "), Number(u64::from(lane))])
}

fn add_comparison_name(
    to: &mut Vec<u8>,
    len: u8,
    upper: bool,
    matched: bool,
) -> Result<(), AllocError>
    ensures { OnOk result (to.new.items ≡ to.old.items ++ bin_name (Bin.Comparison len upper matched)) }
{
    add_parts(to, &[Text("AtomicCompare, ")])?;
    add_bytes(to, len)?;
    add_parts(
        to,
        &[
            Text(", compare value in the "),
            Text(half_name(upper)),
            Text(" half, "),
            Text(matched_name(matched)),
        ],
    )
}

fn add_enables_name(to: &mut Vec<u8>, len: u8, enabled: Enabled) -> Result<(), AllocError>
    ensures { OnOk result (to.new.items ≡ to.old.items ++ bin_name (Bin.Enables len enabled)) }
{
    add_parts(to, &[Text("WriteNoSnpPtl, ")])?;
    add_bytes(to, len)?;
    add_parts(to, &[Text(", byte enables: "), Text(enabled_name(enabled))])
}

/// The name of a result of an AtomicLoad.
fn add_result_name(
    to: &mut Vec<u8>,
    op: Op,
    len: u8,
    result_name: &'static str,
) -> Result<(), AllocError>
    ensures { OnOk result (to.new.items ≡ to.old.items ++ (kind_name (Some (Kind.Load op)) ++ (codes ", " ++ (bytes_text len ++ result_name.now)))) }
{
    add_parts(to, &[Text(Kind::Load(op).name()), Text(", ")])?;
    add_bytes(to, len)?;
    add_parts(to, &[Text(result_name)])
}

fn add_overlap_name(
    to: &mut Vec<u8>,
    earlier: Transaction,
    later: Transaction,
) -> Result<(), AllocError>
    ensures { OnOk result (to.new.items ≡ to.old.items ++ overlap_text earlier later) }
{
    add_parts(
        to,
        &[
            Text(later.name()),
            Text(" while "),
            Text(earlier.name()),
            Text(" was open"),
        ],
    )
}

fn add_sequence_name(
    to: &mut Vec<u8>,
    earlier: Transaction,
    later: Transaction,
) -> Result<(), AllocError>
    ensures { OnOk result (to.new.items ≡ to.old.items ++ sequence_text earlier later) }
{
    add_parts(
        to,
        &[Text(later.name()), Text(" after "), Text(earlier.name())],
    )
}

fn add_line_sequence_name(
    to: &mut Vec<u8>,
    earlier: Transaction,
    later: Transaction,
) -> Result<(), AllocError>
    ensures { OnOk result (to.new.items ≡ to.old.items ++ bin_name (Bin.LineSequence earlier later)) }
{
    add_sequence_name(to, earlier, later)?;
    add_parts(to, &[Text(" on the line")])
}

/// The name of a bin by itself.
pub(crate) fn add_bin_name(to: &mut Vec<u8>, bin: Bin) -> Result<(), AllocError>
    ensures { OnOk result (to.new.items ≡ to.old.items ++ bin_name bin) }
{
    match bin {
        Bin::Operand {
            kind,
            endian,
            len,
            lane,
        } => add_operation_name(to, kind, endian, len, lane),
        Bin::Comparison {
            len,
            upper,
            matched,
        } => add_comparison_name(to, len, upper, matched),
        Bin::Enables { len, enabled } => add_enables_name(to, len, enabled),
        Bin::Kept { op, len } => add_result_name(to, op, len, ", kept"),
        Bin::ChangedSign { op, len } => add_result_name(to, op, len, ", changed sign"),
        Bin::Wrapped { len } => add_result_name(to, Op::Add, len, ", wrapped"),
        Bin::Open(depth) => add_parts(to, &[Text(depth_name(depth))]),
        Bin::Overlap { earlier, later } => add_overlap_name(to, earlier, later),
        Bin::Requester { same } => add_parts(
            to,
            &[
                Text("an overlap with an earlier operation "),
                Text(requester_name(same)),
            ],
        ),
        Bin::Sequence { earlier, later } => add_sequence_name(to, earlier, later),
        Bin::LineSequence { earlier, later } => add_line_sequence_name(to, earlier, later),
    }
}

/// The name of a bin in a row below the head of its group.
pub(crate) fn add_row_name(to: &mut Vec<u8>, bin: Bin) -> Result<(), AllocError>
    ensures { OnOk result (to.new.items ≡ to.old.items ++ row_name bin) }
{
    match bin {
        Bin::Requester { same } => add_parts(to, &[Text(requester_name(same))]),
        _ => add_bin_name(to, bin),
    }
}
