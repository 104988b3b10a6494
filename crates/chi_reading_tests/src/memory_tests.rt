//! Tests of the memory of a trace: a region, or all addresses.

use crate::comparison::assert_same;
use crate::texts::{read, without_requests};

#[test]
fn words_of_a_region(rt: HostRuntime) {
    let members = r#""base": 4096, "granules": 2, "image": "01000000000000000200000000000000", "#;
    let recorded = read(&rt, without_requests(&rt, members).as_str());
    let found = (
        recorded.region().map(|region| region.base()),
        recorded.trace().opening().get(512),
        recorded.trace().opening().get(513),
        recorded.trace().opening().get(514),
        recorded.final_words().get(512),
    );
    assert_same(&rt, found, (Some(4096), Some(1), Some(2), None, None));
}

#[test]
fn words_anywhere(rt: HostRuntime) {
    let members =
        r#""image": [{"addr": 4503599627370488, "bytes": "0300000000000000"}, {"addr": 8, "bytes": "00000000000000ff"}],
        "final": [{"addr": 16, "bytes": "0500000000000000"}], "#;
    let recorded = read(&rt, without_requests(&rt, members).as_str());
    let found = (
        recorded.region().is_none(),
        recorded.trace().opening().get(562949953421311),
        recorded.trace().opening().get(1),
        recorded.trace().opening().get(2),
        recorded.final_words().get(2),
    );
    assert_same(&rt, found, (true, Some(3), Some(0xff << 56), None, Some(5)));
}
