//! Texts of events, and what is found by their lines.

use chi_answer::AnswerFormat;
use chi_search::NoProgress;
use chi_watch_text::{
    LineFormat, LinesFault, Required, Unfinished, WatchOptions, Watched, closing_text, watch_lines,
};
use std::alloc::{AllocError, Global};
use std::test::Fail;

// A write of 5 to address 4096, and its completion.
pub(crate) const WRITE: &str =
    "{\"time\":1,\"event\":\"request\",\"id\":1,\"src\":0,\"txn\":1,\"op\":28,\"size\":3,\"addr\":4096,\"endian\":0,\"be\":255,\"lanes\":\"05000000000000000000000000000000\"}
{\"time\":2,\"event\":\"reply\",\"id\":1,\"reply\":\"comp\"}
";

// The same write, and a read that tells 5 before the write has ended.
pub(crate) const READ_WITHIN_A_WRITE: &str =
    "{\"time\":1,\"event\":\"request\",\"id\":1,\"src\":0,\"txn\":1,\"op\":28,\"size\":3,\"addr\":4096,\"endian\":0,\"be\":255,\"lanes\":\"05000000000000000000000000000000\"}
{\"time\":2,\"event\":\"request\",\"id\":2,\"src\":0,\"txn\":2,\"op\":4,\"size\":3,\"addr\":4096,\"endian\":0}
{\"time\":3,\"event\":\"reply\",\"id\":2,\"reply\":\"05000000000000000000000000000000\"}
{\"time\":4,\"event\":\"reply\",\"id\":1,\"reply\":\"comp\"}
";

// A read of it, without its completion.
pub(crate) const READ: &str =
    "{\"time\":3,\"event\":\"request\",\"id\":2,\"src\":0,\"txn\":2,\"op\":4,\"size\":3,\"addr\":4096,\"endian\":0}
";

// The completion that tells 5, and the one that tells 0, which has no line feed.
pub(crate) const FIVE: &str =
    "{\"time\":4,\"event\":\"reply\",\"id\":2,\"reply\":\"05000000000000000000000000000000\"}
";

pub(crate) const ZERO: &str =
    "{\"time\":4,\"event\":\"reply\",\"id\":2,\"reply\":\"00000000000000000000000000000000\"}";

// A write of 5 to address 4096 that is taken at time 4.
pub(crate) const WRITE_AT_FOUR: &str =
    "{\"time\":4,\"event\":\"request\",\"id\":1,\"src\":0,\"txn\":1,\"op\":28,\"size\":3,\"addr\":4096,\"endian\":0,\"be\":255,\"lanes\":\"05000000000000000000000000000000\"}
{\"time\":5,\"event\":\"reply\",\"id\":1,\"reply\":\"comp\"}
";

// A read of address 4104 that tells 9, and then one of 4096 that tells 5.
pub(crate) const NINE_AND_FIVE: &str =
    "{\"time\":5,\"event\":\"request\",\"id\":3,\"src\":0,\"txn\":3,\"op\":4,\"size\":3,\"addr\":4104,\"endian\":0}
{\"time\":6,\"event\":\"reply\",\"id\":3,\"reply\":\"00000000000000000900000000000000\"}
{\"time\":7,\"event\":\"request\",\"id\":4,\"src\":0,\"txn\":4,\"op\":4,\"size\":3,\"addr\":4096,\"endian\":0}
{\"time\":8,\"event\":\"reply\",\"id\":4,\"reply\":\"05000000000000000000000000000000\"}
";

// That the word at address 4112 is 8 at the end, of which nothing else is told.
pub(crate) const LAST: &str =
    "{\"time\":9,\"event\":\"word\",\"addr\":4112,\"bytes\":\"0800000000000000\",\"final\":true}
";

// That something which is not told may have written to address 4120.
pub(crate) const UNKNOWN: &str = "{\"time\":10,\"event\":\"unknown\",\"addr\":4120,\"length\":8}
";

// That nothing more is told.
pub(crate) const END: &str = "{\"time\":11,\"event\":\"end\"}\n";

/// The texts one after the other.
pub(crate) fn joined(alloc: Global, texts: &[&str]) -> Result<Vec<u8>, AllocError> {
    let mut all = Vec::new(alloc);
    for text in texts {
        all.extend_from_slice(text.as_bytes())?;
    }
    Ok(all)
}

/// What is found of texts one after the other.
pub(crate) fn watched(
    alloc: Global,
    texts: &[&str],
    options: &WatchOptions,
) -> Result<Watched, Unfinished> {
    let all = match joined(alloc, texts) {
        Ok(all) => all,
        Err(_) => {
            return Err(Unfinished {
                found: Vec::new(alloc),
                fault: LinesFault::Memory,
            });
        }
    };
    let mut from = all.as_slice();
    let mut told = Vec::new(alloc);
    watch_lines(alloc, &mut from, &mut told, options, &mut NoProgress)
}

/// A text without the lines that start so.
pub(crate) fn without_lines(alloc: Global, text: &str, start: &str) -> Result<String, Fail> {
    let mut left = String::new(alloc);
    for line in text.lines() {
        if !line.starts_with(start) {
            left.push_str(line)?;
            left.push_str("\n")?;
        }
    }
    Ok(left)
}

/// The text of it, without the lines of how an order ends, since it is not promised which order is found.
pub(crate) fn answer(
    alloc: Global,
    texts: &[&str],
    options: &WatchOptions,
) -> Result<String, Fail> {
    let all = joined(alloc, texts)?;
    let mut from = all.as_slice();
    let mut text = Vec::new(alloc);
    let watched = watch_lines(alloc, &mut from, &mut text, options, &mut NoProgress)?;
    text.extend_from_slice(&closing_text(alloc, &watched, options)?)?;
    without_lines(alloc, &String::from_utf8(text)?, "  up to ")
}

/// Nothing is required, or all of which one can say whether it is there.
pub(crate) const NOTHING: Required = Required {
    end: false,
    operations: 0,
    quiet: false,
    judged: false,
};

pub(crate) const ALL: Required = Required {
    end: true,
    operations: 2,
    quiet: true,
    judged: true,
};

/// It stops at the first line by which a granule is found, or it keeps going.
pub(crate) const STOPPING: WatchOptions = WatchOptions {
    format: LineFormat::Events,
    answer: AnswerFormat::Text,
    budget: 1_000_000,
    around: 16,
    keep_going: false,
    keep_lines: false,
    required: NOTHING,
};

pub(crate) const GOING: WatchOptions = WatchOptions {
    format: LineFormat::Events,
    answer: AnswerFormat::Text,
    budget: 1_000_000,
    around: 16,
    keep_going: true,
    keep_lines: false,
    required: NOTHING,
};

/// The granules that were found by lines, each with its line.
pub(crate) fn places(alloc: Global, watched: &Watched) -> Result<Vec<(u64, u64)>, AllocError> {
    watched
        .found
        .iter()
        .map(|it| (it.granule, it.line))
        .collect(alloc)
}

/// The granules that are found at the end.
pub(crate) fn at_end(alloc: Global, watched: &Watched) -> Result<Vec<u64>, AllocError> {
    let mut granules = Vec::new(alloc);
    if let Some(ending) = &watched.ending {
        for it in &ending.unexplained {
            granules.push(it.granule)?;
        }
    }
    Ok(granules)
}
