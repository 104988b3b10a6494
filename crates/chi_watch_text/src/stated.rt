//! What a line among flits states.

use chi_flits::Flit;
use chi_points::Point;

/// A flit, or the point of a request.
#[derive(Clone, Copy, Debug)]
pub(crate) enum Stated {
    Flit(Flit),
    Point(Point),
}
