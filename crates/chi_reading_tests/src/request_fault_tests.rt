//! Tests of why the request of a trace is refused.

use crate::texts::{assert_fault, write_with};

const NOT_SO: &str = "request 0 is not refused so";

/// Further members of a write, and the fault of its trace; no text where it has none.
const FAULTS: [(&str, &str); 41] = [
    // faults_of_a_request
    (
        r#", "start": 5, "end": 9"#,
        "request 0 member reply is missing",
    ),
    (
        r#", "start": 5, "end": 9, "reply": "done""#,
        r#"request 0 member reply is "done", and not comp, 32 hex digits or null"#,
    ),
    (
        r#", "end": 9, "reply": null"#,
        "request 0 member start is missing",
    ),
    (
        r#", "start": 5, "end": null, "reply": null"#,
        "request 0 member end is null, and not a whole number below 2^64",
    ),
    (
        r#", "start": 5, "end": 4, "reply": "comp""#,
        "request 0 ends before it starts",
    ),
    (
        r#", "src": 65536"#,
        "request 0 member src is 65536, and not a whole number up to 65535",
    ),
    (
        r#", "size": 8"#,
        "request 0 member size is 8, and not a whole number up to 7",
    ),
    (
        r#", "addr": 4503599627370496, "start": 5"#,
        "request 0 is refused: OutOfRegion",
    ),
    // reasons_of_refusals: each of the six reasons, of a write that a home refuses for it.
    (r#", "op": 0, "start": 5, "refused": "UnknownOpcode""#, ""),
    (r#", "size": 7, "start": 5, "refused": "ReservedSize""#, ""),
    (
        r#", "size": 4, "start": 5, "refused": "SizeOutOfProfile""#,
        "",
    ),
    (r#", "addr": 4097, "start": 5, "refused": "Misaligned""#, ""),
    (
        r#", "addr": 4503599627370496, "start": 5, "refused": "OutOfRegion""#,
        "",
    ),
    (r#", "be": 256, "start": 5, "refused": "BadByteEnable""#, ""),
    // faults_of_a_refused_request
    (r#", "start": 5, "refused": "Misaligned""#, NOT_SO),
    (
        r#", "addr": 4097, "start": 5, "refused": "OutOfRegion""#,
        NOT_SO,
    ),
    (r#", "start": 5, "end": 4, "refused": "Misaligned""#, NOT_SO),
    (
        r#", "start": 5, "refused": "misaligned""#,
        r#"request 0 member refused is "misaligned", and not the name of a refusal"#,
    ),
    (
        r#", "start": 5, "refused": "Misaligned ""#,
        r#"request 0 member refused is "Misaligned?", and not the name of a refusal"#,
    ),
    (
        r#", "start": 5, "refused": """#,
        r#"request 0 member refused is "", and not the name of a refusal"#,
    ),
    (
        r#", "start": 5, "refused": null"#,
        r#"request 0 member refused is null, and not the name of a refusal"#,
    ),
    (
        r#", "start": 5, "refused": 3"#,
        r#"request 0 member refused is 3, and not the name of a refusal"#,
    ),
    (
        r#", "addr": 4097, "start": 5, "end": 9, "refused": "Misaligned""#,
        "",
    ),
    (
        r#", "addr": 4097, "start": 5, "end": 4, "refused": "Misaligned""#,
        "request 0 ends before it starts",
    ),
    (
        r#", "addr": 4097, "refused": "Misaligned""#,
        "request 0 member start is missing",
    ),
    (
        r#", "addr": 4097, "start": 5, "refused": "Misaligned", "reply": null"#,
        "request 0 has an unknown member reply",
    ),
    (
        r#", "addr": 4097, "start": 5, "reply": null"#,
        "request 0 is refused: Misaligned",
    ),
    // replies_that_no_home_gives: a trace may tell one, whatever the memory holds. No order explains it then.
    (
        r#", "start": 5, "reply": "00000000000000000000000000000000""#,
        "",
    ),
    (
        r#", "start": 5, "op": 40, "reply": "00000000000000000000000000000000""#,
        "",
    ),
    (r#", "start": 5, "op": 4, "reply": "comp""#, ""),
    (
        r#", "start": 5, "op": 57, "size": 4, "be": 65535, "reply": "comp""#,
        "",
    ),
    (
        r#", "start": 5, "op": 48, "reply": "00000000000000000100000000000000""#,
        "",
    ),
    (
        r#", "start": 5, "op": 48, "addr": 4104, "be": 65280, "reply": "00000000000000010000000000000000""#,
        "",
    ),
    // members_that_a_request_does_not_have: the name is shown up to its 32nd letter; what is no printing letter is a question
    // mark for each byte.
    (
        r#", "start": 5, "finals": []"#,
        "request 0 has an unknown member finals",
    ),
    (
        r#", "start": 5, "base": 0"#,
        "request 0 has an unknown member base",
    ),
    (
        r#", "start": 5, "abcdefghijklmnopqrstuvwxyz012345": 0"#,
        "request 0 has an unknown member abcdefghijklmnopqrstuvwxyz012345",
    ),
    (
        r#", "start": 5, "abcdefghijklmnopqrstuvwxyz0123456": 0"#,
        "request 0 has an unknown member abcdefghijklmnopqrstuvwxyz012345...",
    ),
    (
        r#", "start": 5, "a \u00e9~": 0"#,
        "request 0 has an unknown member a???~",
    ),
    (r#", "finals": []"#, "request 0 member start is missing"),
    (
        r#", "start": 5, "end": 4, "reply": null, "finals": []"#,
        "request 0 has an unknown member finals",
    ),
    (r#", "start": 5, "x-note": 0"#, ""),
];

#[test]
fn faults_of_a_request(rt: HostRuntime) {
    for (members, wanted) in &FAULTS {
        let text = write_with(&rt, members);
        assert_fault(&rt, text.as_str(), wanted);
    }
}
