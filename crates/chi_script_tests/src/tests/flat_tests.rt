//! Which objects are read with no allocation, and what is found in them. A body that reads none is proved too.

use crate::tests::comparison::assert_same;
use chi_json::{FlatObject, JsonObject, Scratch, flat_object};

/// Texts, and whether each is read.
static TEXTS: [(&str, bool); 18] = [
    ("{}", true),
    (" { } \n", true),
    (
        r#"{"a":null,"b":true,"c":18446744073709551615,"d":"\u00e9\n","e":false,"f":0}"#,
        true,
    ),
    (
        r#"{"a":0,"b":1,"c":2,"d":3,"e":4,"f":5,"g":6,"h":7,"i":8,"j":9,"k":10,"l":11,"m":12,"n":13,"o":14}"#,
        true,
    ),
    (
        r#"{"a":0,"b":1,"c":2,"d":3,"e":4,"f":5,"g":6,"h":7,"i":8,"j":9,"k":10,"l":11,"m":12,"n":13,"o":14,"p":15}"#,
        false,
    ),
    (r#"{"a":-1}"#, false),
    (r#"{"a":-0}"#, false),
    (r#"{"a":0.0}"#, false),
    (r#"{"a":1e3}"#, false),
    (r#"{"a":18446744073709551616}"#, false),
    (r#"{"a":[]}"#, false),
    (r#"{"a":{}}"#, false),
    (r#"{"a":0,}"#, false),
    (r#"{"a":0}{}"#, false),
    (r#"{"a":01}"#, false),
    ("[]", false),
    ("", false),
    ("{\"a\":\"\\ud800\"}", false),
];

#[test]
fn texts_of_flat_objects(rt: HostRuntime) {
    let mut scratch = Scratch::new(rt.alloc());
    for (text, is_flat) in &TEXTS {
        let is_read = flat_object(text.as_bytes(), &mut scratch).is_some();
        assert!(rt; is_read == *is_flat, "{text}");
    }
    let is_read = flat_object(b"{\"a\":\"\xff\"}", &mut scratch).is_some();
    assert_same(&rt, is_read, false);
}

/// The number of a member.
fn number(object: &FlatObject<'_>, name: &str) -> Option<u64> {
    object.get(name)?.as_u64()
}

#[test]
fn members_of_a_flat_object(rt: HostRuntime) {
    let mut scratch = Scratch::new(rt.alloc());
    let text = r#"{"a":1,"\u0062":2,"c":"\u00e9","a":3,"d":null,"e":true}"#;
    let Some(object) = flat_object(text.as_bytes(), &mut scratch) else {
        panic!(rt; "no object");
    };
    let numbers = [
        number(&object, "a"),
        number(&object, "b"),
        number(&object, "c"),
        number(&object, "f"),
    ];
    assert_same(&rt, numbers, [Some(3), Some(2), None, None]);
    let found = match (object.get("c"), object.get("d"), object.get("e")) {
        (Some(text), Some(null), Some(is)) => {
            text.as_str() == Some("\u{e9}") && null.is_null() && is.as_bool() == Some(true)
        }
        _ => false,
    };
    assert_same(&rt, found, true);
}
