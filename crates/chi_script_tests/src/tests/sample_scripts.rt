//! Scripts for the tests, with a part exchanged for another, and what is read of them.

use crate::tests::comparison::assert_same;
use chi_fields::Request;
use chi_script::{ScriptFault, read_script};
use std::process::Abort;

pub(crate) const FETCH_ADD_SCRIPT: &str =
    r#"{"base":4096,"granules":8,"requests":[{"src":0,"txn":1,"op":48,"size":3,"addr":4096,"endian":0,"be":255,"lanes":"01000000000000000000000000000000"}]}"#;

pub(crate) const EMPTY_SCRIPT: &str = r#"{"base":4096,"granules":8,"requests":[]}"#;

pub(crate) const FETCH_ADD: Request = Request {
    src: 0,
    txn: 1,
    opcode: 0x30,
    size: 3,
    addr: 0x1000,
    endian: false,
    be: 0x00ff,
    lanes: [1, 0, 0, 0, 0, 0, 0, 0, 0, 0, 0, 0, 0, 0, 0, 0],
};

/// The script of the fetch and add with further members, which are not looked at.
const WITH_MORE: &str =
    r#"{"base":4096,"granules":8,"requests":[{"src":0,"txn":1,"op":48,"size":3,"addr":4096,"endian":0,"be":255,"lanes":"01000000000000000000000000000000","more":[]}],"more":{}}"#;

/// Its requests and its lanes.
pub(crate) const REQUESTS: &str =
    r#""requests":[{"src":0,"txn":1,"op":48,"size":3,"addr":4096,"endian":0,"be":255,"lanes":"01000000000000000000000000000000","more":[]}],"#;

pub(crate) const LANES: &str = r#""lanes":"01000000000000000000000000000000","#;

/// Compares the fault of a text, for requesters up to `top`.
pub(crate) fn assert_fault<R: AllocGlobal + Abort>(
    rt: &R,
    what: &str,
    text: &[u8],
    top: u8,
    wanted: Option<ScriptFault>,
) {
    let found = read_script(rt.alloc(), text, top).err();
    let case = (what, text.len(), top);
    assert_same(rt, (case, found), (case, wanted));
}

/// Compares the fault of the script with further members, of which this part is exchanged for another.
pub(crate) fn assert_exchanged<R: AllocGlobal + Abort>(
    rt: &R,
    (part, other): (&str, &str),
    top: u8,
    wanted: Option<ScriptFault>,
) {
    let (before, after) = WITH_MORE
        .split_once(part)
        .expect(rt, "the script has the part");
    let text = format!(in rt.alloc(); "{before}{other}{after}").expect(rt, "memory");
    assert_fault(rt, text.as_str(), text.as_bytes(), top, wanted);
}

/// Compares a script's region from 4096 on, with its words, and its requests.
pub(crate) fn assert_read<R: AllocGlobal + Abort>(
    rt: &R,
    text: &str,
    words: &[u64],
    requests: &[Request],
) {
    match read_script(rt.alloc(), text.as_bytes(), 7) {
        Ok(script) => {
            let region = (
                script.region().base(),
                usize::from(script.region().granules()),
            );
            let found = (region, script.image(), script.requests());
            let wanted = ((4096, words.len()), words, requests);
            assert_same(rt, (text, found), (text, wanted));
        }
        Err(_) => panic!(*rt; "{text}"),
    }
}
