//! The rows of a table of coverage.

ghost use Rattle.std.specs.Prelude.{◌≡◌, ◌++◌, OnOk, flat_map};
ghost use Rattle.chi_cover.specs.Bins.{lanes_of};
ghost use Rattle.chi_cover.specs.Counts.{count_in};
ghost use Rattle.chi_cover.specs.Texts.{comparison_row, enables_row, kind_rows, lane_text, op_rows, operation_row, order_rows, result_row, some_text, wrapped_text};

use crate::bin::{Bin, Enabled};
use crate::covered::Covered;
use crate::group::{LENGTHS, is_aligned};
use crate::names::order_name;
use chi_fields::{Kind, Op};
use chi_text::Part::{Number, Text};
use chi_text::add_parts;
use std::alloc::AllocError;

/// The counts of a kind, a byte order and a length, by the lane.
fn add_lane_counts(
    to: &mut Vec<u8>,
    covered: &Covered,
    kind: Kind,
    endian: bool,
    len: u8,
) -> Result<(), AllocError>
    ensures { OnOk result (to.new.items ≡ to.old.items ++ flat_map (lane_text (count_in covered.now) kind endian len) (lanes_of len)) }
{
    for lane in 0..16 {
        if is_aligned(lane, len) {
            let bin = Bin::Operand {
                kind,
                endian,
                len,
                lane,
            };
            add_parts(to, &[Text(" "), Number(covered.count(bin))])?;
        }
    }
    Ok(())
}

/// The row of a kind, a byte order and a length.
#[tactic(auto, unfolding(crate::specs::Texts::operation_row))]
fn add_operation_row(
    to: &mut Vec<u8>,
    covered: &Covered,
    kind: Kind,
    endian: bool,
    len: u8,
) -> Result<(), AllocError>
    ensures { OnOk result (to.new.items ≡ to.old.items ++ operation_row (count_in covered.now) kind endian len) }
{
    add_parts(
        to,
        &[
            Text(kind.name()),
            Text(" "),
            Text(order_name(endian)),
            Text(" "),
            Number(u64::from(len)),
            Text(":"),
        ],
    )?;
    add_lane_counts(to, covered, kind, endian, len)?;
    add_parts(to, &[Text("\n")])
}

/// The rows of a kind and a byte order.
#[tactic(auto, unfolding(crate::specs::Texts::order_rows))]
fn add_order_rows(
    to: &mut Vec<u8>,
    covered: &Covered,
    kind: Kind,
    endian: bool,
) -> Result<(), AllocError>
    ensures { OnOk result (to.new.items ≡ to.old.items ++ order_rows (count_in covered.now) kind endian) }
{
    for len in LENGTHS {
        add_operation_row(to, covered, kind, endian, len)?;
    }
    Ok(())
}

/// The rows of a kind.
#[tactic(auto, unfolding(crate::specs::Texts::kind_rows))]
pub(crate) fn add_kind_rows(
    to: &mut Vec<u8>,
    covered: &Covered,
    kind: Kind,
) -> Result<(), AllocError>
    ensures { OnOk result (to.new.items ≡ to.old.items ++ kind_rows (count_in covered.now) kind) }
{
    add_order_rows(to, covered, kind, false)?;
    add_order_rows(to, covered, kind, true)
}

/// How many AtomicCompares of a length and a half of their window have matched, or failed.
fn comparisons(covered: &Covered, len: u8, upper: bool, matched: bool) -> u64
    ensures { result ≡ count_in covered.now (Bin.Comparison len upper matched) }
{
    covered.count(Bin::Comparison {
        len,
        upper,
        matched,
    })
}

/// How many writes of a length had so many byte enables.
fn writes(covered: &Covered, len: u8, enabled: Enabled) -> u64
    ensures { result ≡ count_in covered.now (Bin.Enables len enabled) }
{
    covered.count(Bin::Enables { len, enabled })
}

/// The row of the AtomicCompares of a length.
#[tactic(auto, unfolding(crate::specs::Texts::comparison_row))]
pub(crate) fn add_comparison_row(
    to: &mut Vec<u8>,
    covered: &Covered,
    len: u8,
) -> Result<(), AllocError>
    ensures { OnOk result (to.new.items ≡ to.old.items ++ comparison_row (count_in covered.now) len) }
{
    add_parts(
        to,
        &[
            Text("AtomicCompare "),
            Number(u64::from(len)),
            Text(": lower matched "),
            Number(comparisons(covered, len, false, true)),
            Text(", lower failed "),
            Number(comparisons(covered, len, false, false)),
            Text(", upper matched "),
            Number(comparisons(covered, len, true, true)),
            Text(", upper failed "),
            Number(comparisons(covered, len, true, false)),
            Text("\n"),
        ],
    )
}

fn add_some_enables(to: &mut Vec<u8>, covered: &Covered, len: u8) -> Result<(), AllocError>
    ensures { OnOk result (to.new.items ≡ to.old.items ++ some_text (count_in covered.now) len) }
{
    if len == 1 {
        return Ok(());
    }
    let some = writes(covered, len, Enabled::SomeLanes);
    add_parts(to, &[Text("some "), Number(some), Text(", ")])
}

/// The row of the writes of a length.
#[tactic(auto, unfolding(crate::specs::Texts::enables_row))]
pub(crate) fn add_enables_row(
    to: &mut Vec<u8>,
    covered: &Covered,
    len: u8,
) -> Result<(), AllocError>
    ensures { OnOk result (to.new.items ≡ to.old.items ++ enables_row (count_in covered.now) len) }
{
    let none = writes(covered, len, Enabled::NoLane);
    add_parts(
        to,
        &[
            Text("WriteNoSnpPtl "),
            Number(u64::from(len)),
            Text(": none "),
            Number(none),
            Text(", "),
        ],
    )?;
    add_some_enables(to, covered, len)?;
    let all = writes(covered, len, Enabled::AllLanes);
    add_parts(to, &[Text("all "), Number(all), Text("\n")])
}

fn add_wrapped(to: &mut Vec<u8>, covered: &Covered, op: Op, len: u8) -> Result<(), AllocError>
    ensures { OnOk result (to.new.items ≡ to.old.items ++ wrapped_text (count_in covered.now) op len) }
{
    if op != Op::Add {
        return add_parts(to, &[Text("\n")]);
    }
    add_parts(
        to,
        &[
            Text(", wrapped "),
            Number(covered.count(Bin::Wrapped { len })),
            Text("\n"),
        ],
    )
}

/// The row of the results of an AtomicLoad at a length.
#[tactic(auto, unfolding(crate::specs::Texts::result_row))]
fn add_result_row(to: &mut Vec<u8>, covered: &Covered, op: Op, len: u8) -> Result<(), AllocError>
    ensures { OnOk result (to.new.items ≡ to.old.items ++ result_row (count_in covered.now) op len) }
{
    add_parts(
        to,
        &[
            Text(Kind::Load(op).name()),
            Text(" "),
            Number(u64::from(len)),
            Text(": kept "),
            Number(covered.count(Bin::Kept { op, len })),
            Text(", changed sign "),
            Number(covered.count(Bin::ChangedSign { op, len })),
        ],
    )?;
    add_wrapped(to, covered, op, len)
}

/// The rows of the results of an AtomicLoad.
#[tactic(auto, unfolding(crate::specs::Texts::op_rows))]
pub(crate) fn add_op_rows(to: &mut Vec<u8>, covered: &Covered, op: Op) -> Result<(), AllocError>
    ensures { OnOk result (to.new.items ≡ to.old.items ++ op_rows (count_in covered.now) op) }
{
    for len in LENGTHS {
        add_result_row(to, covered, op, len)?;
    }
    Ok(())
}
