//! What is known of a granule that a page shows.

ghost use Rattle.std.specs.Prelude.{◌<◌, ◌↔◌, All, IsTrue, length};
ghost use Rattle.chi_page.specs.Granules.{AreOfTrace};

use chi_judge::Standing;
use chi_reading::Recorded;

/// A granule, by its number, counted from address 0, and whether its operations can be explained. `order` has places of the trace: the
/// granule's operations in an order that explains them, as far as they can be explained.
#[derive(Debug, Drop)]
pub struct Drawn {
    pub granule: u64,
    pub finding: Standing,
    pub order: Vec<usize>,
}

/// Whether an order has no other places than the first so many.
fn are_below(order: &[usize], count: usize) -> bool
    ensures { IsTrue result ↔ All (λ place. place < count) order.now }
{
    order.iter().all(|place| *place < count)
}

/// Whether the order of each granule has no other places than those of the trace.
///
/// ```
/// let is_drawable = are_of_trace(&recorded, &granules);
/// ```
pub fn are_of_trace(recorded: &Recorded, granules: &[Drawn]) -> bool
    ensures { IsTrue result ↔ AreOfTrace recorded.now granules.now }
{
    let count = recorded.trace().operations().len();
    granules.iter().all(|drawn| are_below(&drawn.order, count))
}
