//! The bins of each group of operations.

ghost use Rattle.std.specs.Prelude.{◌≡◌, [], ◌∷◌, ◌++◌, true, false, ◌%◌, ◌==◌, IfOk, OnOk};
ghost use Rattle.chi_cover.specs.Bins.{comparison_bins, enables_bins, enables_of, kept_of, kind_bins, lane_bins, length_bins, operation_bins, result_bins, sign_of};

use crate::bin::{Bin, Enabled};
use chi_fields::{Kind, Op};
use std::alloc::{AllocError, Global};

/// The lengths of an operand.
pub(crate) const LENGTHS: [u8; 4] = [1, 2, 4, 8];

/// The kinds of operations.
pub(crate) const KINDS: [Kind; 20] = [
    Kind::Read,
    Kind::Write,
    Kind::Store(Op::Add),
    Kind::Store(Op::Clr),
    Kind::Store(Op::Eor),
    Kind::Store(Op::Set),
    Kind::Store(Op::SMax),
    Kind::Store(Op::SMin),
    Kind::Store(Op::UMax),
    Kind::Store(Op::UMin),
    Kind::Load(Op::Add),
    Kind::Load(Op::Clr),
    Kind::Load(Op::Eor),
    Kind::Load(Op::Set),
    Kind::Load(Op::SMax),
    Kind::Load(Op::SMin),
    Kind::Load(Op::UMax),
    Kind::Load(Op::UMin),
    Kind::Swap,
    Kind::Compare,
];

/// Whether a lane is a multiple of a length.
pub(crate) fn is_aligned(lane: u8, len: u8) -> bool
    ensures { result ≡ (lane % len == 0) }
{
    if len == 0 { lane == 0 } else { lane % len == 0 }
}

fn add_lanes(to: &mut Vec<Bin>, kind: Kind, endian: bool, len: u8) -> Result<(), AllocError>
    ensures { OnOk result (to.new.items ≡ to.old.items ++ lane_bins kind endian len) }
{
    for lane in 0..16 {
        if is_aligned(lane, len) {
            to.push(Bin::Operand {
                kind,
                endian,
                len,
                lane,
            })?;
        }
    }
    Ok(())
}

fn add_lengths(to: &mut Vec<Bin>, kind: Kind, endian: bool) -> Result<(), AllocError>
    ensures { OnOk result (to.new.items ≡ to.old.items ++ length_bins kind endian) }
{
    for len in LENGTHS {
        add_lanes(to, kind, endian, len)?;
    }
    Ok(())
}

fn add_kind(to: &mut Vec<Bin>, kind: Kind) -> Result<(), AllocError>
    ensures { OnOk result (to.new.items ≡ to.old.items ++ kind_bins kind) }
{
    add_lengths(to, kind, false)?;
    add_lengths(to, kind, true)
}

/// The bins of operations by kind, byte order, length and lane.
pub(crate) fn operation_bins(alloc: Global) -> Result<Vec<Bin>, AllocError>
    ensures { IfOk result (λ bins. bins.items ≡ operation_bins) }
{
    let mut bins = Vec::new(alloc);
    for kind in KINDS {
        add_kind(&mut bins, kind)?;
    }
    Ok(bins)
}

fn add_half(to: &mut Vec<Bin>, len: u8, upper: bool) -> Result<(), AllocError>
    ensures { OnOk result (to.new.items ≡ to.old.items ++ (Bin.Comparison len upper true ∷ Bin.Comparison len upper false ∷ [])) }
{
    to.push(Bin::Comparison {
        len,
        upper,
        matched: true,
    })?;
    to.push(Bin::Comparison {
        len,
        upper,
        matched: false,
    })?;
    Ok(())
}

/// The bins of AtomicCompares.
pub(crate) fn comparison_bins(alloc: Global) -> Result<Vec<Bin>, AllocError>
    ensures { IfOk result (λ bins. bins.items ≡ comparison_bins) }
{
    let mut bins = Vec::new(alloc);
    for len in LENGTHS {
        add_half(&mut bins, len, false)?;
        add_half(&mut bins, len, true)?;
    }
    Ok(bins)
}

fn add_enables(to: &mut Vec<Bin>, len: u8) -> Result<(), AllocError>
    ensures { OnOk result (to.new.items ≡ to.old.items ++ enables_of len) }
{
    to.push(Bin::Enables {
        len,
        enabled: Enabled::NoLane,
    })?;
    if len != 1 {
        to.push(Bin::Enables {
            len,
            enabled: Enabled::SomeLanes,
        })?;
    }
    to.push(Bin::Enables {
        len,
        enabled: Enabled::AllLanes,
    })?;
    Ok(())
}

/// The bins of writes.
pub(crate) fn enables_bins(alloc: Global) -> Result<Vec<Bin>, AllocError>
    ensures { IfOk result (λ bins. bins.items ≡ enables_bins) }
{
    let mut bins = Vec::new(alloc);
    for len in LENGTHS {
        add_enables(&mut bins, len)?;
    }
    Ok(bins)
}

fn add_kept(to: &mut Vec<Bin>, op: Op) -> Result<(), AllocError>
    ensures { OnOk result (to.new.items ≡ to.old.items ++ kept_of op) }
{
    for len in LENGTHS {
        to.push(Bin::Kept { op, len })?;
    }
    Ok(())
}

fn add_signs(to: &mut Vec<Bin>, op: Op) -> Result<(), AllocError>
    ensures { OnOk result (to.new.items ≡ to.old.items ++ sign_of op) }
{
    for len in LENGTHS {
        to.push(Bin::ChangedSign { op, len })?;
    }
    Ok(())
}

/// The bins of the results of AtomicLoads.
pub(crate) fn result_bins(alloc: Global) -> Result<Vec<Bin>, AllocError>
    ensures { IfOk result (λ bins. bins.items ≡ result_bins) }
{
    let mut bins = Vec::new(alloc);
    for kept in Op::ALL {
        add_kept(&mut bins, kept)?;
    }
    for changed in Op::ALL {
        add_signs(&mut bins, changed)?;
    }
    for len in LENGTHS {
        bins.push(Bin::Wrapped { len })?;
    }
    Ok(bins)
}
