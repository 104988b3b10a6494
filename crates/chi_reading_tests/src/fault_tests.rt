//! Tests of why a trace is refused: its text, its region and words, and its members.

use crate::texts::{assert_fault, without_requests};

/// Texts and their faults.
const TEXTS: [(&str, &str); 6] = [
    ("{", "trace is not JSON"),
    ("[]", "trace is not an object"),
    ("{}", "trace member requests is missing"),
    (r#"{"requests": [1]}"#, "request 0 is not an object"),
    (
        r#"{"granules": 2, "requests": []}"#,
        "trace member base is missing",
    ),
    (
        r#"{"base": 4096, "granules": 0, "requests": []}"#,
        "trace region is refused: GranuleCount",
    ),
];

#[test]
fn faults_of_the_text(rt: HostRuntime) {
    for (text, wanted) in &TEXTS {
        assert_fault(&rt, text, wanted);
    }
}

const NOT_WORDS: &str = "trace member image is a list, and not the words of granules";

/// Members of a trace without requests, and its fault; no text where it has none.
const MEMBERS: [(&str, &str); 16] = [
    // faults_of_words_anywhere
    (
        r#""image": "00", "#,
        r#"trace member image is "00", and not the words of granules"#,
    ),
    (r#""image": [1], "#, NOT_WORDS),
    (r#""image": [{"bytes": "0300000000000000"}], "#, NOT_WORDS),
    (
        r#""image": [{"addr": 9, "bytes": "0300000000000000"}], "#,
        NOT_WORDS,
    ),
    (
        r#""image": [{"addr": 4503599627370496, "bytes": "0300000000000000"}], "#,
        NOT_WORDS,
    ),
    (
        r#""image": [{"addr": 8, "bytes": "03000000000000"}], "#,
        NOT_WORDS,
    ),
    (
        r#""image": [{"addr": 8, "bytes": "0300000000000000"}, {"addr": 8, "bytes": "0300000000000000"}], "#,
        NOT_WORDS,
    ),
    (
        r#""final": {"addr": 8}, "#,
        "trace member final is an object, and not the words of granules, or of a word true or false",
    ),
    // faults_of_a_region
    (
        r#""base": "0x1000", "granules": 2, "#,
        r#"trace member base is "0x1000", and not a whole number below 2^64"#,
    ),
    (
        r#""base": 4096, "granules": 65536, "#,
        "trace member granules is 65536, and not a whole number up to 65535",
    ),
    (
        r#""base": 4096, "granules": 1, "image": [], "#,
        "trace member image is a list, and not the words of granules",
    ),
    (
        r#""base": 4096, "granules": 2, "final": "030000000000000000000000000000000", "#,
        r#"trace member final is "03000000000000000000000000000000...", and not the words of granules, or of a word true or false"#,
    ),
    // members_that_a_trace_does_not_have
    (r#""finals": [], "#, "trace has an unknown member finals"),
    (r#""start": 5, "#, "trace has an unknown member start"),
    (
        r#""finals": [], "image": 0, "#,
        "trace member image is 0, and not the words of granules",
    ),
    (r#""x-note": [], "base": 9, "#, ""),
];

#[test]
fn faults_of_members(rt: HostRuntime) {
    for (members, wanted) in &MEMBERS {
        let text = without_requests(&rt, members);
        assert_fault(&rt, text.as_str(), wanted);
    }
}
