//! What is required, and what of it is missing.

use crate::tests::comparison::assert_same;
use crate::tests::events::{ALL, END, FIVE, NOTHING, READ, STOPPING, UNKNOWN, WRITE, watched};
use chi_watch_text::{Required, WatchOptions};
use std::test::Fail;

// Lines, and what of all that can be required is missing.
static MISSING: [(&[&str], Required); 7] = [
    (
        &[],
        Required {
            end: true,
            operations: 2,
            ..NOTHING
        },
    ),
    (&[WRITE, READ, FIVE, END], NOTHING),
    (
        &[WRITE, READ, FIVE],
        Required {
            end: true,
            ..NOTHING
        },
    ),
    (
        &[
            WRITE,
            READ,
            FIVE,
            END,
            "{\"time\":12,\"event\":\"unknown\",\"addr\":0,\"length\":1}",
        ],
        Required {
            end: true,
            judged: true,
            ..NOTHING
        },
    ),
    (
        &[WRITE, READ, END],
        Required {
            operations: 2,
            quiet: true,
            ..NOTHING
        },
    ),
    (
        &[WRITE, READ, FIVE, UNKNOWN, END],
        Required {
            judged: true,
            ..NOTHING
        },
    ),
    (&[WRITE, READ, FIVE, END, END], NOTHING),
];

// Two operations ended where the read of 5 did. Unknown bytes leave a granule that is not judged. A line after the end is the last.
#[test]
fn what_is_missing(rt: HostRuntime) -> Result<(), Fail> {
    let options = WatchOptions {
        required: ALL,
        ..STOPPING
    };
    for (texts, missing) in &MISSING {
        let watched = watched(rt.alloc(), texts, &options)?;
        let found = options.required.missing(&watched);
        assert_same(
            &rt,
            (texts.len(), found, found.is_nothing()),
            (texts.len(), *missing, *missing == NOTHING),
        );
        assert_same(&rt, NOTHING.missing(&watched).is_nothing(), true);
    }
    Ok(())
}
