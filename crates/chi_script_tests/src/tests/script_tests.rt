//! Tests of reading scripts.

use crate::tests::sample_scripts::{
    EMPTY_SCRIPT, FETCH_ADD, FETCH_ADD_SCRIPT, assert_fault, assert_read,
};
use chi_fields::{RegionFault, Request};
use chi_script::{Member, ScriptFault};
use std::process::Abort;

/// Scripts with their words and requests.
const SCRIPTS: [(&str, &[u64], &[Request]); 7] = [
    // first_fetch_add_script
    (FETCH_ADD_SCRIPT, &[0; 8], &[FETCH_ADD]),
    // empty_script
    (EMPTY_SCRIPT, &[0; 8], &[]),
    // lanes_in_either_case
    (
        r#"{"base":4096,"granules":8,"requests":[{"src":0,"txn":1,"op":48,"size":3,"addr":4096,"endian":0,"be":255,"lanes":"AbCDEF00000000000000000000000000","more":[]}],"more":{}}"#,
        &[0; 8],
        &[Request {
            lanes: [0xab, 0xcd, 0xef, 0, 0, 0, 0, 0, 0, 0, 0, 0, 0, 0, 0, 0],
            ..FETCH_ADD
        }],
    ),
    // opening_image, in either case, and no_opening_image
    (
        r#"{"base":4096,"granules":1,"image":"FFFFFFFFFFFFFFFF","requests":[{"src":0,"txn":1,"op":48,"size":3,"addr":4096,"endian":0,"be":255,"lanes":"01000000000000000000000000000000"}]}"#,
        &[u64::MAX],
        &[FETCH_ADD],
    ),
    (
        r#"{"base":4096,"granules":1,"image":"0011223344556677","requests":[]}"#,
        &[0x7766_5544_3322_1100],
        &[],
    ),
    (
        r#"{"base":4096,"granules":2,"image":"0100000000000000aBcDEf0000000080","requests":[]}"#,
        &[1, 0x8000_0000_00ef_cdab],
        &[],
    ),
    (r#"{"base":4096,"granules":2,"requests":[]}"#, &[0, 0], &[]),
];

#[test]
fn scripts_that_are_read(rt: HostRuntime) {
    for (text, words, requests) in &SCRIPTS {
        assert_read(&rt, text, words, requests);
    }
}

/// Scripts without requests, and texts that are none.
const FAULTS: [(&str, Option<ScriptFault>); 12] = [
    (
        r#"{"base":"4096","granules":8,"requests":[]}"#,
        Some(ScriptFault::BadMember(Member::Base)),
    ),
    (
        r#"{"base":4096,"granules":513,"requests":[]}"#,
        Some(ScriptFault::RegionRefused(RegionFault::GranuleCount)),
    ),
    (
        r#"{"base":4097,"granules":0,"requests":[]}"#,
        Some(ScriptFault::RegionRefused(RegionFault::BaseNotLineAligned)),
    ),
    (r#"{"base":4096,"granules":512,"requests":[]}"#, None),
    (
        r#"{"base":4503599627370432,"granules":8,"requests":[]}"#,
        None,
    ),
    (
        r#"{"base":4503599627370496,"granules":1,"requests":[]}"#,
        Some(ScriptFault::RegionRefused(RegionFault::EndPastAddresses)),
    ),
    ("[]", Some(ScriptFault::NotObject)),
    ("{}", Some(ScriptFault::Missing(Member::Base))),
    // image_in_its_place
    (
        r#"{"image":null,"granules":1}"#,
        Some(ScriptFault::Missing(Member::Base)),
    ),
    (
        r#"{"image":null,"base":4096}"#,
        Some(ScriptFault::Missing(Member::Granules)),
    ),
    (
        r#"{"image":"0011223344556677","base":4096,"granules":1}"#,
        Some(ScriptFault::Missing(Member::Requests)),
    ),
    (
        r#"{"image":"","base":1,"granules":1,"requests":[]}"#,
        Some(ScriptFault::BadMember(Member::Image)),
    ),
];

#[test]
fn script_faults(rt: HostRuntime) {
    for (text, wanted) in &FAULTS {
        assert_fault(&rt, text, text.as_bytes(), 7, *wanted);
    }
}

/// A request, one that is the last, and one whose size is past its bound.
const REQUEST: &str =
    r#"{"src":0,"txn":1,"op":48,"size":3,"addr":4096,"endian":0,"be":255,"lanes":"01000000000000000000000000000000","more":0},"#;

const LAST: &str =
    r#"{"src":0,"txn":1,"op":48,"size":3,"addr":4096,"endian":0,"be":255,"lanes":"01000000000000000000000000000000","more":0}]}"#;

const LAST_OF_SIZE_EIGHT: &str =
    r#"{"src":0,"txn":1,"op":48,"size":8,"addr":4096,"endian":0,"be":255,"lanes":"01000000000000000000000000000000","more":0}]}"#;

// Compares the fault of a script of so many requests and then a last one.
fn assert_long<R: AllocGlobal + Abort>(
    rt: &R,
    opening: &str,
    count: usize,
    last: &str,
    wanted: Option<ScriptFault>,
) {
    let mut text = String::new(rt.alloc());
    text.push_str(opening).expect(rt, "memory");
    for _ in 0..count {
        text.push_str(REQUEST).expect(rt, "memory");
    }
    text.push_str(last).expect(rt, "memory");
    assert_fault(rt, opening, text.as_bytes(), 7, wanted);
}

// However many there are, the walk comes to the last request before they are counted.
#[test]
fn too_many_requests(rt: HostRuntime) {
    let (few, many) = (
        r#"{"base":4096,"granules":8,"requests":["#,
        r#"{"base":4096,"granules":65535,"requests":["#,
    );
    assert_long(&rt, few, 4095, LAST, None);
    let bad_size = ScriptFault::BadMember(Member::Size);
    for (opening, count) in [(few, 4096), (few, 4097), (few, 4999), (many, 4096)] {
        let refused = ScriptFault::TooManyRequests;
        assert_long(&rt, opening, count, LAST, Some(refused));
        assert_long(&rt, opening, count, LAST_OF_SIZE_EIGHT, Some(bad_size));
    }
}
