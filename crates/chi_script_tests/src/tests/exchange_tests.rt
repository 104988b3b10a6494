//! Tests of the script of a fetch and add with one of its members left out or exchanged for another.

use crate::tests::sample_scripts::{LANES, REQUESTS, assert_exchanged};
use chi_script::{Member, ScriptFault};

/// What each part is exchanged for, and the fault then.
const EXCHANGED: [(&str, &str, Option<ScriptFault>); 32] = [
    // missing_members
    (
        r#""base":4096,"#,
        "",
        Some(ScriptFault::Missing(Member::Base)),
    ),
    (
        r#""granules":8,"#,
        "",
        Some(ScriptFault::Missing(Member::Granules)),
    ),
    (r#""src":0,"#, "", Some(ScriptFault::Missing(Member::Src))),
    (r#""txn":1,"#, "", Some(ScriptFault::Missing(Member::Txn))),
    (
        r#""op":48,"#,
        "",
        Some(ScriptFault::Missing(Member::Opcode)),
    ),
    (r#""size":3,"#, "", Some(ScriptFault::Missing(Member::Size))),
    (
        r#""addr":4096,"#,
        "",
        Some(ScriptFault::Missing(Member::Addr)),
    ),
    (
        r#""endian":0,"#,
        "",
        Some(ScriptFault::Missing(Member::Endian)),
    ),
    (r#""be":255,"#, "", Some(ScriptFault::Missing(Member::Be))),
    (LANES, "", Some(ScriptFault::Missing(Member::Lanes))),
    (REQUESTS, "", Some(ScriptFault::Missing(Member::Requests))),
    // hostile_scripts
    (
        r#""base":4096,"#,
        r#""base":4096.5,"#,
        Some(ScriptFault::BadMember(Member::Base)),
    ),
    (
        r#""base":4096,"#,
        r#""base":-1,"#,
        Some(ScriptFault::BadMember(Member::Base)),
    ),
    (
        r#""base":4096,"#,
        r#""base":null,"#,
        Some(ScriptFault::BadMember(Member::Base)),
    ),
    (
        r#""base":4096,"#,
        r#""base":18446744073709551616,"#,
        Some(ScriptFault::BadMember(Member::Base)),
    ),
    (
        r#""granules":8,"#,
        r#""granules":65536,"#,
        Some(ScriptFault::BadMember(Member::Granules)),
    ),
    (
        r#""granules":8,"#,
        r#""granules":1e1,"#,
        Some(ScriptFault::BadMember(Member::Granules)),
    ),
    (
        REQUESTS,
        r#""requests":{},"#,
        Some(ScriptFault::BadMember(Member::Requests)),
    ),
    (
        REQUESTS,
        r#""requests":[7],"#,
        Some(ScriptFault::BadMember(Member::Requests)),
    ),
    (
        r#""src":0,"#,
        r#""src":8,"#,
        Some(ScriptFault::BadMember(Member::Src)),
    ),
    (
        r#""txn":1,"#,
        r#""txn":256,"#,
        Some(ScriptFault::BadMember(Member::Txn)),
    ),
    (
        r#""op":48,"#,
        r#""op":256,"#,
        Some(ScriptFault::BadMember(Member::Opcode)),
    ),
    (
        r#""size":3,"#,
        r#""size":8,"#,
        Some(ScriptFault::BadMember(Member::Size)),
    ),
    (
        r#""addr":4096,"#,
        r#""addr":-1,"#,
        Some(ScriptFault::BadMember(Member::Addr)),
    ),
    (
        r#""endian":0,"#,
        r#""endian":2,"#,
        Some(ScriptFault::BadMember(Member::Endian)),
    ),
    (
        r#""endian":0,"#,
        r#""endian":true,"#,
        Some(ScriptFault::BadMember(Member::Endian)),
    ),
    (
        r#""be":255,"#,
        r#""be":65536,"#,
        Some(ScriptFault::BadMember(Member::Be)),
    ),
    (
        LANES,
        r#""lanes":1,"#,
        Some(ScriptFault::BadMember(Member::Lanes)),
    ),
    (
        LANES,
        r#""lanes":"0100000000000000000000000000000","#,
        Some(ScriptFault::BadMember(Member::Lanes)),
    ),
    (
        LANES,
        r#""lanes":"010000000000000000000000000000000","#,
        Some(ScriptFault::BadMember(Member::Lanes)),
    ),
    (
        LANES,
        r#""lanes":"0100000000000000000000000000000g","#,
        Some(ScriptFault::BadMember(Member::Lanes)),
    ),
    // script_faults_of_a_third_requester, who is one of 0 to 7,
    (r#""src":0,"#, r#""src":3,"#, None),
];

#[test]
fn hostile_scripts(rt: HostRuntime) {
    for (part, other, wanted) in &EXCHANGED {
        assert_exchanged(&rt, (part, other), 7, *wanted);
    }
    // and none of 0 to 2.
    let third = (r#""src":0,"#, r#""src":3,"#);
    let refused = ScriptFault::BadMember(Member::Src);
    assert_exchanged(&rt, third, 2, Some(refused));
}
