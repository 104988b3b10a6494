//! Which lines are read with no allocation: the usual ones. A body that answers none is proved too.

use chi_json::Scratch;
use chi_reading::usual_event;

/// Lines, and whether each is usual.
static LINES: [(&str, bool); 23] = [
    (
        r#"{"time":70,"event":"request","id":3,"src":513,"txn":65535,"op":48,"size":3,"addr":4096,"endian":1,"be":255,"lanes":"01000000000000000000000000000000"}"#,
        true,
    ),
    (
        r#"{"time":70,"event":"request","id":3,"src":1,"txn":0,"op":4,"size":3,"addr":18446744073709551615,"endian":0,"x-a":0,"x-b":"","x-c":null,"x-d":true,"x-e":1,"x-f":"f"}"#,
        true,
    ),
    (
        r#"{"time":70,"event":"data","id":3,"be":255,"lanes":"01000000000000000000000000000000"}"#,
        true,
    ),
    (r#"{"time":70,"event":"reply","id":3,"reply":"comp"}"#, true),
    (r#"{"time":70,"event":"reply","id":3,"reply":null}"#, true),
    (r#"{"time":70,"event":"dropped","id":3}"#, true),
    (
        r#"{"time":70,"event":"refused","id":3,"reason":"Misaligned"}"#,
        true,
    ),
    (
        r#"{"time":70,"event":"word","addr":4104,"bytes":"0000000000000000","final":true}"#,
        true,
    ),
    (
        r#"{"time":70,"event":"unknown","addr":4104,"length":1}"#,
        true,
    ),
    ("{\"time\":70,\"event\":\"end\"}\r\n", true),
    // escapes, a member told twice, white space
    (
        r#"{"\u0074ime":70,"event":"drop\u0070ed","id":3,"x-\n":"\"\ud83d\ude00"}"#,
        true,
    ),
    (r#"{"time":70,"event":"dropped","id":"none","id":3}"#, true),
    (
        r#" { "time" : 70 , "event" : "dropped" , "id" : 3 } "#,
        true,
    ),
    // lists, objects and other numbers, also of the monitor's own members; many members
    (
        r#"{"time":70,"event":"dropped","id":3,"x-note":{"id":4}}"#,
        false,
    ),
    (r#"{"time":70,"event":"dropped","id":3,"x-note":[]}"#, false),
    (r#"{"time":70,"event":"dropped","id":3,"x-note":-1}"#, false),
    (
        r#"{"time":70,"event":"dropped","id":3,"x-note":0.5}"#,
        false,
    ),
    (
        r#"{"time":70,"event":"dropped","id":3,"x-note":18446744073709551616}"#,
        false,
    ),
    (
        r#"{"time":70,"event":"dropped","id":3,"x-":0,"x-":1,"x-":2,"x-":3,"x-":4,"x-":5,"x-":6,"x-":7,"x-":8,"x-":9,"x-":10,"x-":11,"x-":12}"#,
        false,
    ),
    // faults
    (r#"{"time":70,"event":"dropped"}"#, false),
    (r#"{"time":70,"event":"dropped","id":3,"note":0}"#, false),
    (r#"{"time":70,"event":"dropped","id":3}}"#, false),
    (
        r#"{"time":70,"event":"dropped","id":3,"requests":0}"#,
        false,
    ),
];

#[test]
fn usual_lines(rt: HostRuntime) {
    let mut scratch = Scratch::new(rt.alloc());
    for (line, is_usual) in &LINES {
        let is_told = usual_event(&mut scratch, 4, line.as_bytes()).is_some();
        assert!(rt; is_told == *is_usual, "{line}");
    }
}
