//! Tests of weights.

use crate::tests::comparison::assert_same;
use chi_stimulus::{Mix, MixFault};
use std::test::Fail;

#[test]
fn weights_that_are_named(rt: HostRuntime) -> Result<(), Fail> {
    let all = "read=1,write=1,store=2,load=3,swap=1,compare=1";
    assert_same(&rt, Mix::named(all).is_ok(), true);
    let other_order = "compare=1,load=3,store=2,swap=1,read=1,write=1";
    assert_same(&rt, Mix::named(other_order), Mix::named(all));
    let with_nought = "load=1000,store=0";
    assert_same(&rt, Mix::named(with_nought), Mix::named("load=1000"));
    Ok(())
}

#[test]
fn texts_that_name_no_weights(rt: HostRuntime) -> Result<(), Fail> {
    let texts = [
        "",
        ",",
        "load",
        "load=",
        "load=1,",
        "=1",
        "lode=1",
        "load=1001",
        "load=-1",
        "load=1 ",
        "load=0",
        "load=1,load",
        "LOAD=1",
    ];
    for text in texts {
        assert_same(&rt, (text, Mix::named(text)), (text, Err(MixFault)));
    }
    Ok(())
}
