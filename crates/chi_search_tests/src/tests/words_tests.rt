//! Tests of the words that a few operations can leave, which were worked by hand.

use super::found::{ANY, Left, SPENT, WordsCase, assert_words};
use super::operations::{ADD, READ, STORE_ADD, Timed, WRITE};
use std::test::Fail;

const ANSWERED: Timed = Timed::Told((0, 10), ADD, 1, 0);

const ONE: Timed = Timed::Done((0, 10), STORE_ADD, 1);

const TWO: Timed = Timed::Done((5, 15), STORE_ADD, 2);

const SILENT: Timed = Timed::Silent((0, 10), ADD, 1);

const LATER: Timed = Timed::Silent((5, 15), ADD, 1);

const ENOUGH: (u64, Left) = (1000, ANY);

static LEFT: [WordsCase; 13] = [
    (
        "answered_adds_leave_one_word: both",
        &[ANSWERED, Timed::Told((5, 15), ADD, 2, 1)],
        &[0],
        ENOUGH,
        &[3],
    ),
    (
        "answered_adds_leave_one_word: lost",
        &[ANSWERED, Timed::Told((5, 15), ADD, 2, 0)],
        &[0],
        ENOUGH,
        &[],
    ),
    (
        "answered_adds_leave_one_word: untold",
        &[ONE, TWO],
        &[0],
        ENOUGH,
        &[3],
    ),
    (
        "silent_adds_leave_each_word_once: one",
        &[SILENT],
        &[7],
        ENOUGH,
        &[7, 8],
    ),
    (
        "silent_adds_leave_each_word_once: two",
        &[SILENT, LATER],
        &[7],
        ENOUGH,
        &[7, 8, 9],
    ),
    (
        "silent_adds_leave_each_word_once: and a read",
        &[SILENT, LATER, Timed::Told((20, 30), READ, 0, 8)],
        &[7],
        ENOUGH,
        &[8],
    ),
    (
        "words_from_two_opening_words: untold",
        &[ONE],
        &[0, 5],
        ENOUGH,
        &[1, 6],
    ),
    (
        "words_from_two_opening_words: add",
        &[Timed::Told((0, 10), ADD, 1, 5)],
        &[0, 5],
        ENOUGH,
        &[6],
    ),
    (
        "words_from_two_opening_words: write",
        &[Timed::Done((0, 10), WRITE, 4)],
        &[0, 5],
        ENOUGH,
        &[4],
    ),
    (
        "no_words_from_none_and_the_opening_ones_without_operations: from none",
        &[SILENT],
        &[],
        ENOUGH,
        &[],
    ),
    (
        "no_words_from_none_and_the_opening_ones_without_operations: without operations",
        &[],
        &[7, 3, 7],
        ENOUGH,
        &[3, 7],
    ),
    (
        "unknown_where_the_budget_was_spent: enough",
        &[ONE, TWO],
        &[0],
        (10, (6, 6)),
        &[3],
    ),
    (
        "unknown_where_the_budget_was_spent: short",
        &[ONE, TWO],
        &[0],
        (2, SPENT),
        &[998],
    ),
];

#[test]
fn words_that_few_operations_leave(rt: HostRuntime) -> Result<(), Fail> {
    assert_words(&rt, &LEFT)
}
