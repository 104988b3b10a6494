//! The path of a search.

ghost use Rattle.std.specs.Prelude.{◌≡◌, IfOk};
ghost use Rattle.chi_search.specs.Paths;

use crate::state::State;
use std::alloc::{AllocError, Global};

/// A step: the state from which it was made, the operation that was taken, or none where the first was left out, and the
/// place before which all operations were tried.
#[derive(Drop)]
pub(crate) struct Step {
    pub from: State,
    pub op: Option<usize>,
    pub tried: usize,
}

/// The operations that were taken, in order.
pub(crate) fn taken(alloc: Global, path: &[Step]) -> Result<Vec<usize>, AllocError>
    ensures { IfOk result (λ order. order.items ≡ Paths.taken path.now) }
{
    let mut order = Vec::with_capacity(alloc, path.len())?;
    for step in path {
        if let Some(op) = step.op {
            order.push(op)?;
        }
    }
    Ok(order)
}
