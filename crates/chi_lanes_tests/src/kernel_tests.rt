//! Tests of the calls on runs of lanes, by values worked out from what each says that it gives.

use crate::comparison::assert_same;
use chi_lanes::{compare_half, extract, insert, lane_mask, swap_half, swap_order};

// Lane i holds i.
const EACH_LANE: [u8; 16] = [0, 1, 2, 3, 4, 5, 6, 7, 8, 9, 10, 11, 12, 13, 14, 15];

// Bytes 11, 22 and so on, in the order of their addresses.
const WORD: u64 = 0x8877_6655_4433_2211;

#[test]
fn lane_masks(rt: HostRuntime) {
    assert_same(&rt, lane_mask(0, 1), 0x0000_0000_0000_00ff);
    assert_same(&rt, lane_mask(1, 2), 0x0000_0000_00ff_ff00);
    assert_same(&rt, lane_mask(3, 4), 0x00ff_ffff_ff00_0000);
    assert_same(&rt, lane_mask(7, 1), 0xff00_0000_0000_0000);
    assert_same(&rt, lane_mask(0, 8), 0xffff_ffff_ffff_ffff);
}

#[test]
fn extracted_lanes(rt: HostRuntime) {
    assert_same(&rt, extract(WORD, 0, 1), 0x11);
    assert_same(&rt, extract(WORD, 2, 2), 0x4433);
    assert_same(&rt, extract(WORD, 1, 5), 0x66_5544_3322);
    assert_same(&rt, extract(WORD, 7, 1), 0x88);
    assert_same(&rt, extract(WORD, 0, 8), WORD);
}

#[test]
fn inserted_lanes(rt: HostRuntime) {
    assert_same(&rt, insert(WORD, 0, 1, 0xab), 0x8877_6655_4433_22ab);
    assert_same(&rt, insert(WORD, 2, 2, 0xabcd), 0x8877_6655_abcd_2211);
    assert_same(&rt, insert(WORD, 4, 4, 0xabcd_ef01), 0xabcd_ef01_4433_2211);
    assert_same(&rt, insert(WORD, 7, 1, 0), 0x0077_6655_4433_2211);
    assert_same(&rt, insert(WORD, 0, 8, 5), 5);
}

#[test]
fn swapped_orders(rt: HostRuntime) {
    assert_same(&rt, swap_order(0xab, 1), 0xab);
    assert_same(&rt, swap_order(0x1234, 2), 0x3412);
    assert_same(&rt, swap_order(0x01, 3), 0x01_0000);
    assert_same(&rt, swap_order(0x0102_0304, 4), 0x0403_0201);
    assert_same(&rt, swap_order(WORD, 8), 0x1122_3344_5566_7788);
}

#[test]
fn compare_halves(rt: HostRuntime) {
    assert_same(&rt, compare_half(&EACH_LANE, 3, 1), 0x03);
    assert_same(&rt, compare_half(&EACH_LANE, 2, 2), 0x0302);
    assert_same(&rt, compare_half(&EACH_LANE, 12, 2), 0x0d0c);
    assert_same(&rt, compare_half(&EACH_LANE, 4, 4), 0x0706_0504);
    assert_same(&rt, compare_half(&EACH_LANE, 8, 8), 0x0f0e_0d0c_0b0a_0908);
}

#[test]
fn swap_halves(rt: HostRuntime) {
    assert_same(&rt, swap_half(&EACH_LANE, 3, 1), 0x02);
    assert_same(&rt, swap_half(&EACH_LANE, 2, 2), 0x0100);
    assert_same(&rt, swap_half(&EACH_LANE, 12, 2), 0x0f0e);
    assert_same(&rt, swap_half(&EACH_LANE, 4, 4), 0x0302_0100);
    assert_same(&rt, swap_half(&EACH_LANE, 8, 8), 0x0706_0504_0302_0100);
    assert_same(&rt, swap_half(&EACH_LANE, 0, 8), 0x0f0e_0d0c_0b0a_0908);
}
