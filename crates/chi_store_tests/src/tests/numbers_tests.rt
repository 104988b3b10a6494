//! What no clause says: that each call on numbers does on real values what its sets say.

use crate::tests::comparison::assert_same;
use chi_history::Numbers;
use std::test::Fail;

// Which of the numbers 0 to 7 the set has: bit k is number k.
fn bits(numbers: &Numbers) -> u8 {
    let mut bits: u8 = 0;
    for k in 0..8 {
        if numbers.has(k) {
            bits |= 1 << k;
        }
    }
    bits
}

#[test]
fn numbers_counted_and_merged(rt: HostRuntime) -> Result<(), Fail> {
    let mut some = Numbers::all(3);
    let three = (bits(&some), some.count(), some.has(1));
    some.remove(1);
    let two = (bits(&some), some.count());
    let mut others = Numbers::only(7);
    others.merge(Numbers::only(1));
    let merged = bits(&others);
    some.merge(others);
    let four = (bits(&some), some.count());
    assert_same(
        &rt,
        (three, two, merged, four, Numbers::all(8).count()),
        (
            (0b0000_0111, 3, true),
            (0b0000_0101, 2),
            0b1000_0010,
            (0b1000_0111, 4),
            8,
        ),
    );
    Ok(())
}
