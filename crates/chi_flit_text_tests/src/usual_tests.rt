//! Which flits and points are read with no allocation: those of usual objects. A body that answers none is proved too.

use chi_flit_text::{names_point, usual_flit, usual_point};
use chi_json::{FlatObject, Scratch, flat_object};

/// Objects, and whether each is usual.
static OBJECTS: [(&str, bool); 14] = [
    (
        r#"{"channel":"REQ","time":70,"src":"1","txn":"a3","opcode":"28","size":"3","addr":"1008","endian":"0","excl":"x","valid":"1"}"#,
        true,
    ),
    (
        r#"{"channel":"RSP","time":70,"tgt":"1","txn":"a3","opcode":"5","resp_err":"2","dbid":"00C"}"#,
        true,
    ),
    (
        r#"{"channel":"RDAT","time":70,"tgt":"1","txn":"a3","opcode":"4","resp_err":"0","data_id":"0","data":"0000000000000000xx00000000000001"}"#,
        true,
    ),
    (
        r#"{"channel":"WDAT","time":70,"src":"1","txn":"a3","opcode":"3","data_id":"0","be":"00ff","data":"00000000000000000000000000000001","x-cycle":7}"#,
        true,
    ),
    (
        r#"{"channel":"POINT","time":70,"src":"1","txn":"a3"}"#,
        true,
    ),
    (
        r#"{"\u0063hannel":"POI\u004eT","time":70,"src":"z","src":"1","txn":"a3"}"#,
        true,
    ),
    (
        r#"{"channel":"POINT","time":70,"src":"1","txn":"a3","x-note":[]}"#,
        false,
    ),
    (
        r#"{"channel":"RSP","time":70.0,"tgt":"1","txn":"a3","opcode":"5","resp_err":"2","dbid":"00C"}"#,
        false,
    ),
    // faults
    (
        r#"{"channel":"POINT","time":70,"src":"x","txn":"a3"}"#,
        false,
    ),
    (
        r#"{"channel":"POINT","time":70,"src":"1","txn":"a3","opcode":"4"}"#,
        false,
    ),
    (
        r#"{"channel":"RSP","time":70,"tgt":"1","txn":"a3","opcode":"5","resp_err":"2","dbid":"x"}"#,
        false,
    ),
    (
        r#"{"channel":"RSP","time":70,"tgt":"1","txn":"a3","opcode":"5","resp_err":"2","dbid":"0","valid":"x"}"#,
        false,
    ),
    (
        r#"{"channel":"RSP","time":70,"tgt":"1","txn":"a3","opcode":"5","resp_err":"2","dbid":"0","addr":"0"}"#,
        false,
    ),
    (r#"{"channel":"SNP","time":70}"#, false),
];

/// Whether an object is read as a flit or a point.
fn is_read(object: &FlatObject<'_>) -> bool {
    if names_point(object) {
        usual_point(object).is_some()
    } else {
        usual_flit(7, object).is_some()
    }
}

#[test]
fn usual_objects(rt: HostRuntime) {
    let mut scratch = Scratch::new(rt.alloc());
    for (text, is_usual) in &OBJECTS {
        let is_stated = match flat_object(text.as_bytes(), &mut scratch) {
            Some(object) => is_read(&object),
            None => false,
        };
        assert!(rt; is_stated == *is_usual, "{text}");
    }
}
