//! One order of the whole trace, from orders of its granules.

ghost use Rattle.std.specs.Prelude.{◌≡◌, ℕ, ◌++◌, List, All, IfOk, OnOk, true};
ghost use Rattle.std.specs.List.{filter};
ghost use Rattle.std.specs.List.Sorted.{IsNonDecreasingBy};
ghost use Rattle.chi_trace.specs.Explains.{IsInTime, IsTrace, is_place};
ghost use Rattle.chi_trace.specs.Granules.{is_of};
ghost use Rattle.chi_verdict.specs.Points.{AreOrdered, ArePoints, order_of};

use chi_trace::Operation;
use std::alloc::{AllocError, Global};

/// An operation, at its place, and a time at which it may have taken effect.
#[derive(Clone, Copy)]
pub(crate) struct Point {
    pub time: u64,
    pub place: usize,
}

/// Adds the operations of an order in time, each at the latest start of it and of those before it: none of these ends
/// earlier.
pub(crate) fn add_points(
    points: &mut Vec<Point>,
    ops: &[Operation],
    order: &[usize],
) -> Result<(), AllocError>
    requires traced { IsTrace ops.now }
    requires places { All (λ i. is_place ops.now i ≡ true) order.now }
    requires times { IsInTime ops.now order.now }
    ensures { OnOk result ((added : List Point) × (points.new.items ≡ points.old.items ++ added) × (order_of added ≡ order.now) × ArePoints ops.now added × IsNonDecreasingBy (λ (p : Point). p.time) added) }
{
    let mut time = 0;
    for place in order {
        time = time.max(ops[*place].start);
        points.push(Point {
            time,
            place: *place,
        })?;
    }
    Ok(())
}

/// The operations in the order of their points. Those of one granule stay in their order.
pub(crate) fn merge_orders(
    alloc: Global,
    ops: &[Operation],
    points: &mut Vec<Point>,
) -> Result<Vec<usize>, AllocError>
    requires points { ArePoints ops.now points.old.items }
    requires ordered { AreOrdered ops.now points.old.items }
    ensures times { IfOk result (λ order. IsInTime ops.now order.items) }
    ensures places { IfOk result (λ order. All (λ i. is_place ops.now i ≡ true) (order_of points.old.items) → All (λ i. is_place ops.now i ≡ true) order.items) }
    ensures parts { IfOk result (λ order. (g : ℕ) → filter (is_of ops.now g) order.items ≡ filter (is_of ops.now g) (order_of points.old.items)) }
{
    points.sort_by_key(|p| p.time)?;
    let mut order = Vec::with_capacity(alloc, points.len())?;
    for point in &*points {
        order.push(point.place)?;
    }
    Ok(order)
}
