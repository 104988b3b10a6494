//! Tests of the word that operations leave in an order.

use super::operations::{ADD, Timed, observed};
use crate::tests::comparison::assert_same;
use chi_search::Frontier;
use std::test::Fail;

// Two additions of 1 to 5, one after the other.
static ADDITIONS: [Timed; 2] = [
    Timed::Told((0, 1), ADD, 1, 5),
    Timed::Told((2, 3), ADD, 1, 6),
];

// The places, and the word that is left.
type Order = (&'static [usize], Option<u64>);

static ORDERS: [Order; 5] = [
    (&[], Some(5)),
    (&[0], Some(6)),
    (&[0, 1], Some(7)),
    (&[1, 0], None),
    (&[0, 2], None),
];

#[test]
fn words_along_orders(rt: HostRuntime) -> Result<(), Fail> {
    let mut frontier = Frontier::new(rt.alloc(), &[5])?;
    for op in &observed(rt.alloc(), &ADDITIONS)? {
        let _is_told = frontier.add(op)?;
    }
    for (order, wanted) in &ORDERS {
        let found = frontier.word_along(rt.alloc(), *order)?;
        assert_same(&rt, (*order, found), (*order, *wanted));
    }
    Ok(())
}
