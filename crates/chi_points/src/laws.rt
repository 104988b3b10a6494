//! Laws of what waits. Each function does nothing: its contract is the law, for proofs that call it.

ghost use Rattle.chi_points.specs.PointLaws.{NumbersHavePlaces, RequestsAreToldOnce};

/// What is told now are the first slots, and the others wait in their order. Of a request that is told nothing is left, and of the
/// others all. What a flit tells of a request comes after what was told of it before. No request has two points.
pub fn requests_are_told_once()
    ensures { RequestsAreToldOnce }
{}

/// The place of each event of a request is that of the flit by which it took its TxnID.
pub fn numbers_have_places()
    ensures { NumbersHavePlaces }
{}
