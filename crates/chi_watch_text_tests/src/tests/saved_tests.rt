//! The lines that tell of one granule.

use crate::tests::comparison::assert_same;
use crate::tests::events::{
    FIVE, GOING, LAST, NINE_AND_FIVE, READ, STOPPING, WRITE, ZERO, joined, watched,
};
use chi_json::ObjectFault;
use chi_reading::LineFault;
use chi_watch_text::{LinesFault, TellingFault, WatchOptions, lines_of_granule};
use std::alloc::Global;
use std::process::Abort;
use std::test::Fail;

// Lines of the granules 512 and 513, at the addresses 4096 and 4104: requests with the numbers 1 to 3, and what is told of them.
// The word of 512 is told before, and that of 513.
const WORD_LOW: &str = "{\"time\":0,\"event\":\"word\",\"addr\":4096,\"bytes\":\"0000000000000000\"}
";

const WORD_HIGH: &str =
    "{\"time\":0,\"event\":\"word\",\"addr\":4104,\"bytes\":\"0000000000000000\"}
";

const ONE_LOW: &str =
    "{\"time\":1,\"event\":\"request\",\"id\":1,\"src\":0,\"txn\":1,\"op\":28,\"size\":3,\"addr\":4096,\"endian\":0}
";

const TWO_HIGH: &str =
    "{\"time\":2,\"event\":\"request\",\"id\":2,\"src\":0,\"txn\":2,\"op\":4,\"size\":3,\"addr\":4104,\"endian\":0}
";

const THREE_LOW: &str =
    "{\"time\":3,\"event\":\"request\",\"id\":3,\"src\":0,\"txn\":3,\"op\":4,\"size\":2,\"addr\":4100,\"endian\":0}
";

const DATA_ONE: &str =
    "{\"time\":4,\"event\":\"data\",\"id\":1,\"be\":255,\"lanes\":\"05000000000000000000000000000000\"}
";

const REPLY_ONE: &str = "{\"time\":5,\"event\":\"reply\",\"id\":1,\"reply\":\"comp\"}\n";

const DROP_TWO: &str = "{\"time\":6,\"event\":\"dropped\",\"id\":2}\n";

const REFUSE_THREE: &str = "{\"time\":7,\"event\":\"refused\",\"id\":3}\n";

// The number 1 is that of a request of the other granule now.
const ONE_HIGH: &str =
    "{\"time\":8,\"event\":\"request\",\"id\":1,\"src\":0,\"txn\":4,\"op\":4,\"size\":3,\"addr\":4104,\"endian\":0}
";

const REPLY_ONE_HIGH: &str =
    "{\"time\":9,\"event\":\"reply\",\"id\":1,\"reply\":\"00000000000000000000000000000000\"}
";

// Something that is not told may have written to the last byte of 512, to the first of 513, or to both.
const UNKNOWN_LOW: &str = "{\"time\":10,\"event\":\"unknown\",\"addr\":4103,\"length\":1}\n";

const UNKNOWN_HIGH: &str = "{\"time\":11,\"event\":\"unknown\",\"addr\":4104,\"length\":1}\n";

const UNKNOWN_BOTH: &str = "{\"time\":12,\"event\":\"unknown\",\"addr\":4103,\"length\":2}\n";

const LAST_LOW: &str =
    "{\"time\":13,\"event\":\"word\",\"addr\":4096,\"bytes\":\"0500000000000000\",\"final\":true}
";

// The end, without a line feed.
const END: &str = "{\"time\":14,\"event\":\"end\"}";

// The lines that tell of a granule are these.
fn assert_saved<R: Abort>(
    rt: &R,
    alloc: Global,
    texts: &[&str],
    granule: u64,
    wanted: &[&str],
) -> Result<(), Fail> {
    let text = joined(alloc, texts)?;
    let found = lines_of_granule(alloc, &text, granule)?;
    let wanted = joined(alloc, wanted)?;
    assert_same(
        rt,
        (granule, String::from_utf8(found)?),
        (granule, String::from_utf8(wanted)?),
    );
    Ok(())
}

#[test]
fn two_granules(rt: HostRuntime) -> Result<(), Fail> {
    let texts = [
        WORD_LOW,
        WORD_HIGH,
        ONE_LOW,
        TWO_HIGH,
        THREE_LOW,
        DATA_ONE,
        REPLY_ONE,
        DROP_TWO,
        REFUSE_THREE,
        ONE_HIGH,
        REPLY_ONE_HIGH,
        UNKNOWN_LOW,
        UNKNOWN_HIGH,
        UNKNOWN_BOTH,
        LAST_LOW,
        END,
    ];
    let low = [
        WORD_LOW,
        ONE_LOW,
        THREE_LOW,
        DATA_ONE,
        REPLY_ONE,
        REFUSE_THREE,
        UNKNOWN_LOW,
        UNKNOWN_BOTH,
        LAST_LOW,
        END,
    ];
    let high = [
        WORD_HIGH,
        TWO_HIGH,
        DROP_TWO,
        ONE_HIGH,
        REPLY_ONE_HIGH,
        UNKNOWN_HIGH,
        UNKNOWN_BOTH,
        END,
    ];
    assert_saved(&rt, rt.alloc(), &texts, 512, &low)?;
    assert_saved(&rt, rt.alloc(), &texts, 513, &high)?;
    assert_saved(&rt, rt.alloc(), &texts, 514, &[END])?;
    assert_saved(&rt, rt.alloc(), &texts, u64::MAX, &[END])?;
    assert_saved(&rt, rt.alloc(), &[], 512, &[])
}

// A number that comes back to the granule is its own again.
#[test]
fn a_number_that_comes_back(rt: HostRuntime) -> Result<(), Fail> {
    let texts = [
        ONE_HIGH,
        REPLY_ONE_HIGH,
        ONE_LOW,
        REPLY_ONE,
        ONE_HIGH,
        REPLY_ONE,
    ];
    assert_saved(&rt, rt.alloc(), &texts, 512, &[ONE_LOW, REPLY_ONE])?;
    let high = [ONE_HIGH, REPLY_ONE_HIGH, ONE_HIGH, REPLY_ONE];
    assert_saved(&rt, rt.alloc(), &texts, 513, &high)
}

#[test]
fn a_line_that_tells_no_event(rt: HostRuntime) -> Result<(), Fail> {
    let text = joined(rt.alloc(), &[ONE_LOW, "\n", REPLY_ONE])?;
    let wanted = LinesFault::Line {
        number: 2,
        fault: TellingFault::Event(LineFault::Object(ObjectFault::NotJson)),
    };
    assert_same(
        &rt,
        lines_of_granule(rt.alloc(), &text, 512).err(),
        Some(wanted),
    );
    Ok(())
}

// Lines with how they are watched, and those of them that are kept.
type KeptCase = (
    WatchOptions,
    &'static [&'static str],
    &'static [&'static str],
);

static KEPT: [KeptCase; 5] = [
    (STOPPING, &[WRITE, READ, FIVE, " \n"], &[WRITE, READ, FIVE]),
    (
        STOPPING,
        &[WRITE, READ, ZERO, "\n", LAST],
        &[WRITE, READ, ZERO, "\n"],
    ),
    (STOPPING, &[WRITE, READ, ZERO], &[WRITE, READ, ZERO]),
    (
        GOING,
        &[WRITE, NINE_AND_FIVE, LAST],
        &[WRITE, NINE_AND_FIVE, LAST],
    ),
    (GOING, &[], &[]),
];

// The lines that a watch takes are kept where they are to be: those up to the time at which it stops, and without the blank ones at
// the end.
#[test]
fn lines_that_are_kept(rt: HostRuntime) -> Result<(), Fail> {
    for (options, texts, wanted) in &KEPT {
        let keeping = WatchOptions {
            keep_lines: true,
            ..*options
        };
        let kept = watched(rt.alloc(), texts, &keeping)?
            .kept
            .unwrap_or(Vec::new(rt.alloc()));
        let wanted = joined(rt.alloc(), wanted)?;
        assert_same(&rt, String::from_utf8(kept)?, String::from_utf8(wanted)?);
        assert_same(
            &rt,
            watched(rt.alloc(), texts, options)?.kept.is_some(),
            false,
        );
    }
    Ok(())
}
