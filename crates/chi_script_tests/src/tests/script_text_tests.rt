//! Tests of texts that are no JSON, and of the faults' own texts.

use crate::tests::comparison::assert_text;
use crate::tests::sample_scripts::{EMPTY_SCRIPT, FETCH_ADD_SCRIPT, assert_fault};
use chi_fields::RegionFault;
use chi_script::{Member, ScriptFault};

/// The script of the fetch and add, whose last digit is the byte ff.
const NO_TEXT: &[u8] =
    b"{\"base\":4096,\"granules\":8,\"requests\":[{\"src\":0,\"txn\":1,\"op\":48,\"size\":3,\"addr\":4096,\"endian\":0,\"be\":255,\"lanes\":\"0100000000000000000000000000000\xff\"}]}";

// A proper prefix is none, and nor is a text with a byte that no letter has.
#[test]
fn texts_that_are_no_json(rt: HostRuntime) {
    let wanted = Some(ScriptFault::NotJson);
    for whole in [FETCH_ADD_SCRIPT, EMPTY_SCRIPT] {
        for end in 0..whole.len() {
            assert_fault(&rt, whole, &whole.as_bytes()[..end], 7, wanted);
        }
    }
    assert_fault(&rt, "bytes_that_are_no_text", NO_TEXT, 7, wanted);
}

#[test]
fn texts_nested_too_deep(rt: HostRuntime) {
    let mut nested = [b']'; 256];
    nested[..128].fill(b'[');
    let (deep, deeper) = (ScriptFault::NotObject, ScriptFault::NotJson);
    assert_fault(&rt, "127 deep", &nested[1..255], 7, Some(deep));
    assert_fault(&rt, "128 deep", &nested, 7, Some(deeper));
}

#[test]
fn script_before_many_spaces(rt: HostRuntime) {
    let text = EMPTY_SCRIPT.as_bytes();
    let mut spaced = vec![in rt.alloc(); b' '; 4_194_304].expect(&rt, "memory");
    spaced[..text.len()].copy_from_slice(text);
    assert_fault(&rt, "many spaces", spaced.as_slice(), 7, None);
}

#[test]
fn script_fault_texts(rt: HostRuntime) {
    for (fault, wanted) in &[
        (ScriptFault::NotJson, "script is not JSON"),
        (ScriptFault::NotObject, "script is not an object"),
        (
            ScriptFault::Missing(Member::Opcode),
            "script member op is missing",
        ),
        (
            ScriptFault::BadMember(Member::Lanes),
            "script member lanes is not as stated",
        ),
        (
            ScriptFault::TooManyRequests,
            "script has over 4096 requests",
        ),
        (
            ScriptFault::RegionRefused(RegionFault::GranuleCount),
            "script region is refused: GranuleCount",
        ),
        (ScriptFault::Memory, "no memory"),
    ] {
        assert_text(&rt, *fault, wanted);
    }
}
