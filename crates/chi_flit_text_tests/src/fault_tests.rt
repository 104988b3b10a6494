//! The faults of a flit's object, their order, and their texts.

use crate::comparison::assert_fault;
use chi_flit_text::{FlitLineFault, FlitMember};
use chi_json::{ObjectFault, ShownText, ShownValue};
use std::process::Abort;

/// A fault of a member that is not as stated.
fn bad(member: FlitMember, text: &str) -> FlitLineFault {
    FlitLineFault::Object(ObjectFault::BadMember {
        member,
        value: ShownValue::Text(ShownText::of(text)),
    })
}

/// A fault of a member that is missing.
fn missing(member: FlitMember) -> FlitLineFault {
    FlitLineFault::Object(ObjectFault::Missing(member))
}

/// Openings whose members follow.
const EMPTY: &str = "{";

const REQUEST: &str = r#"{"channel":"REQ","time":70"#;

const RESPONSE: &str = r#"{"channel":"RSP","time":70"#;

const WRITE: &str = r#"{"channel":"WDAT","time":70,"src":"2","txn":"3","opcode":"3","data_id":"0""#;

/// Openings and members, and which member is missing.
const MISSING: [(&str, &str, FlitMember); 6] = [
    // faults_of_a_request_in_their_order
    (EMPTY, "", FlitMember::Channel),
    (EMPTY, r#""channel":"REQ""#, FlitMember::Time),
    (REQUEST, r#","txn":"g""#, FlitMember::Src),
    (REQUEST, r#","src":"1","txn":"2""#, FlitMember::Opcode),
    // faults_of_data
    (WRITE, "", FlitMember::Be),
    (WRITE, r#","be":"ffff","resp_err":"4""#, FlitMember::Data),
];

#[test]
fn missing_members(rt: HostRuntime) {
    for (opening, members, member) in &MISSING {
        assert_fault(&rt, opening, members, missing(*member));
    }
}

/// Openings and members, and which member is this text and not as stated.
const BAD: [(&str, &str, FlitMember, &str); 23] = [
    // faults_of_a_request_in_their_order
    (EMPTY, r#""channel":"req""#, FlitMember::Channel, "req"),
    (REQUEST, r#","src":"1","txn":"g""#, FlitMember::Txn, "g"),
    (
        REQUEST,
        r#","src":"1","txn":"2","opcode":"100""#,
        FlitMember::Opcode,
        "100",
    ),
    (
        REQUEST,
        r#","src":"1","txn":"2","opcode":"0","size":"8""#,
        FlitMember::Size,
        "8",
    ),
    (
        REQUEST,
        r#","src":"1","txn":"2","opcode":"0","size":"7","addr":"10000000000000""#,
        FlitMember::Addr,
        "10000000000000",
    ),
    (
        REQUEST,
        r#","src":"1","txn":"2","opcode":"0","size":"7","addr":"0","endian":"2""#,
        FlitMember::Endian,
        "2",
    ),
    (
        REQUEST,
        r#","src":"1","txn":"2","opcode":"0","size":"7","addr":"0","excl":"""#,
        FlitMember::Excl,
        "",
    ),
    (
        REQUEST,
        r#","src":"1","txn":"2","opcode":"x","size":"7","addr":"0","note":0,"valid":"0""#,
        FlitMember::Valid,
        "0",
    ),
    (
        REQUEST,
        r#","src":"1","txn":"2","opcode":"x","size":"7","addr":"0","note":0,"valid":"xx""#,
        FlitMember::Valid,
        "xx",
    ),
    // texts_that_are_no_numbers
    (RESPONSE, r#","tgt":"""#, FlitMember::Tgt, ""),
    (RESPONSE, r#","tgt":"0h1""#, FlitMember::Tgt, "0h1"),
    (RESPONSE, r#","tgt":"-1""#, FlitMember::Tgt, "-1"),
    (RESPONSE, r#","tgt":" 1""#, FlitMember::Tgt, " 1"),
    (RESPONSE, r#","tgt":"1_0""#, FlitMember::Tgt, "1_0"),
    (
        RESPONSE,
        r#","tgt":"00000000000000001""#,
        FlitMember::Tgt,
        "00000000000000001",
    ),
    (RESPONSE, r#","tgt":"10000""#, FlitMember::Tgt, "10000"),
    (
        RESPONSE,
        r#","tgt":"zzzzzzzzzzzzzzzzz""#,
        FlitMember::Tgt,
        "zzzzzzzzzzzzzzzzz",
    ),
    // faults_of_data
    (WRITE, r#","be":"fff""#, FlitMember::Be, "fff"),
    (WRITE, r#","be":"ffgf""#, FlitMember::Be, "ffgf"),
    (WRITE, r#","be":"ffff","data":"00""#, FlitMember::Data, "00"),
    (
        WRITE,
        r#","data":"00000000000000000000000000000000","be":"ffffffff""#,
        FlitMember::Be,
        "ffffffff",
    ),
    (
        WRITE,
        r#","data":"00000000000000000000000000000000","be":"ffff","resp_err":"4""#,
        FlitMember::RespErr,
        "4",
    ),
    (
        WRITE,
        r#","data":"00000000000000000000000000000000g","be":"ffff""#,
        FlitMember::Data,
        "00000000000000000000000000000000g",
    ),
];

#[test]
fn bad_members(rt: HostRuntime) {
    for (opening, members, member, text) in &BAD {
        assert_fault(&rt, opening, members, bad(*member, text));
    }
    let value = ShownValue::Whole(1);
    let member = FlitMember::Tgt;
    let fault = FlitLineFault::Object(ObjectFault::BadMember { member, value });
    assert_fault(&rt, RESPONSE, r#","tgt":1"#, fault);
}

/// The members of a request whose opcode is not known.
const UNKNOWN: &str =
    r#"{"channel":"REQ","time":70,"src":"1","txn":"2","opcode":"x","size":"7","addr":"0""#;

// Those after the faults of its members.
#[test]
fn faults_of_a_request_in_their_order(rt: HostRuntime) {
    let fault = FlitLineFault::UnknownValid;
    assert_fault(&rt, UNKNOWN, r#","note":0,"valid":"Z""#, fault);
    let other = ObjectFault::UnknownMember(ShownText::of("tgt"));
    let fault = FlitLineFault::Object(other);
    assert_fault(&rt, UNKNOWN, r#","tgt":"1""#, fault);
    let fault = FlitLineFault::UnknownDigit(FlitMember::Opcode);
    assert_fault(&rt, UNKNOWN, "", fault);
}

// Compares the text of a fault.
fn assert_text<R: AllocGlobal + Abort>(rt: &R, fault: FlitLineFault, wanted: &str) {
    let text = format!(in rt.alloc(); "{fault}").expect(rt, "memory");
    assert!(*rt; text.as_str() == wanted, "{text}, {wanted}");
}

/// Members that are these texts and not as stated, and what is told of that.
const TEXTS: [(FlitMember, &str, &str); 5] = [
    (
        FlitMember::Txn,
        "g",
        "member txn is \"g\", and not 1 to 16 hex digits, x or z, up to ffff",
    ),
    (
        FlitMember::Channel,
        "req",
        "member channel is \"req\", and not REQ, RSP, RDAT, WDAT or POINT",
    ),
    (
        FlitMember::Be,
        "f",
        "member be is \"f\", and not 4, 8 or 16 hex digits, x or z: an eighth of those of data",
    ),
    (
        FlitMember::Data,
        "0",
        "member data is \"0\", and not 32, 64 or 128 hex digits, x or z",
    ),
    (
        FlitMember::Valid,
        "0",
        "member valid is \"0\", and not 1, x or z",
    ),
];

#[test]
fn texts_of_faults(rt: HostRuntime) {
    for (member, text, wanted) in &TEXTS {
        assert_text(&rt, bad(*member, text), wanted);
    }
    assert_text(&rt, missing(FlitMember::Txn), "member txn is missing");
    let value = ShownValue::Whole(-1);
    let member = FlitMember::Time;
    let fault = FlitLineFault::Object(ObjectFault::BadMember { member, value });
    let wanted = "member time is -1, and not a whole number below 2^64";
    assert_text(&rt, fault, wanted);
    let other = ObjectFault::UnknownMember(ShownText::of("tgt"));
    let fault = FlitLineFault::Object(other);
    assert_text(&rt, fault, "has an unknown member tgt");
    let fault = FlitLineFault::UnknownValid;
    assert_text(&rt, fault, "has a valid that is not known");
    let fault = FlitLineFault::UnknownDigit(FlitMember::DataId);
    assert_text(&rt, fault, "has an x in its data_id");
    let wanted = "has a DataID that no flit of its width has";
    assert_text(&rt, FlitLineFault::DataId, wanted);
}
