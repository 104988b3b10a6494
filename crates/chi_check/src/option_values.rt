//! The options that a task was given.

ghost use Rattle.std.specs.Prelude.{◌≡◌, [], false, codes, map, unwrap_or, IfOk, IsTrue};
ghost use Rattle.std.specs.Option.{option_map};
ghost use Rattle.clap.specs.Matches.{found_of};
ghost use Rattle.clap.specs.Walk.{all_of, first_of, one_of, rows_of};
ghost use Rattle.chi_check.specs.OptionValues.{HasCoverOptions, HasNoAddress, HasRequired, HasWatchOptions, IsAddress, IsAddressOrNone, answer_format, errors_asked, flits_asked, format_asked, has_other_effect, has_other_format, lacks_flits, lines_asked};
ghost use Rattle.chi_program.specs.OptionValues.{IsNumberOr, IsNumberOrNone, has_word};

use crate::options::{CheckOptions, CoverOptions, WatchingOptions};
use chi_answer::AnswerFormat;
use chi_program::{has_word, is_switched, number_given, number_or, text_given};
use chi_watch_text::{ErrorEffect, LineFormat, Required};
use clap::ArgMatches;
use std::alloc::{AllocError, Global};

// How many states of each granule are looked at where no number is given.
const BUDGET: u64 = 1_000_000;

// How many operations are shown before the one that is blamed where no number is given.
const AROUND: u64 = 16;

// How many operations have to have ended where no number is given.
const OPERATIONS: u64 = 0;

// How many operations a bin has to count to be covered where no number is given.
const GOAL: u64 = 1;

// How many of a hundred bins have to be covered where no number is given.
const REQUIRE: u64 = 0;

// The file that is to be a page, where one was given.
fn html_file<'a>(matches: &ArgMatches<'a>) -> Option<&'a str>
    ensures { option_map (λ s. s.now) result ≡ first_of (codes "html") (rows_of (found_of matches.now)) }
{
    text_given(matches, "html")
}

/// The file that is read, where one was named.
pub(crate) fn file_given<'a>(matches: &ArgMatches<'a>) -> Option<&'a str>
    ensures { option_map (λ s. s.now) result ≡ first_of (codes "file") (rows_of (found_of matches.now)) }
{
    text_given(matches, "file")
}

// What an error says of its request.
fn errors_asked(matches: &ArgMatches<'_>) -> ErrorEffect
    ensures { result ≡ errors_asked (rows_of (found_of matches.now)) }
{
    if has_word(matches, "errors", "none") {
        ErrorEffect::None
    } else {
        ErrorEffect::Unknown
    }
}

// What each line among flits tells.
fn flits_asked(matches: &ArgMatches<'_>) -> LineFormat
    ensures { result ≡ flits_asked (rows_of (found_of matches.now)) }
{
    let errors = errors_asked(matches);
    if is_switched(matches, "points") {
        LineFormat::PointedFlits { errors }
    } else {
        LineFormat::Flits { errors }
    }
}

// What each line of an input tells, where it is no trace.
fn lines_asked(matches: &ArgMatches<'_>) -> Option<LineFormat>
    ensures { result ≡ lines_asked (rows_of (found_of matches.now)) }
{
    if is_switched(matches, "flits") {
        Some(flits_asked(matches))
    } else if is_switched(matches, "events") {
        Some(LineFormat::Events)
    } else {
        None
    }
}

// What each line that is watched tells.
fn format_asked(matches: &ArgMatches<'_>) -> LineFormat
    ensures { result ≡ format_asked (rows_of (found_of matches.now)) }
{
    if is_switched(matches, "flits") {
        flits_asked(matches)
    } else {
        LineFormat::Events
    }
}

/// Whether what is of flits alone is asked for, and no flits: points, or that errors have no effect.
pub(crate) fn lacks_flits(matches: &ArgMatches<'_>) -> bool
    ensures { result ≡ lacks_flits (rows_of (found_of matches.now)) }
{
    (is_switched(matches, "points") || has_word(matches, "errors", "none"))
        && !is_switched(matches, "flits")
}

/// Whether what an error says of its request is neither of the two words.
pub(crate) fn has_other_effect(matches: &ArgMatches<'_>) -> bool
    ensures { result ≡ has_other_effect (rows_of (found_of matches.now)) }
{
    !has_word(matches, "errors", "none") && !has_word(matches, "errors", "unknown")
}

/// Whether the form of an answer is neither of the two words.
pub(crate) fn has_other_format(matches: &ArgMatches<'_>) -> bool
    ensures { result ≡ has_other_format (rows_of (found_of matches.now)) }
{
    match text_given(matches, "format") {
        Some(word) => word != "text" && word != "json",
        None => false,
    }
}

// The form of an answer.
fn answer_format(matches: &ArgMatches<'_>) -> AnswerFormat
    ensures { result ≡ answer_format (rows_of (found_of matches.now)) }
{
    if has_word(matches, "format", "json") {
        AnswerFormat::Json
    } else {
        AnswerFormat::Text
    }
}

// The address that a text is, where it is one.
fn address(text: &str) -> Option<u64>
    ensures { IsAddress text.now result }
{
    match text.strip_prefix("0x") {
        Some(digits) => u64::from_str_radix(digits, 16).ok(),
        None => u64::from_str_radix(text, 10).ok(),
    }
}

// The address of the granule that is asked for, where one is.
fn granule_asked(matches: &ArgMatches<'_>) -> Option<u64>
    ensures { IsAddressOrNone (first_of (codes "granule") (rows_of (found_of matches.now))) result }
{
    address(text_given(matches, "granule")?)
}

/// Whether the granule that is asked for is no address.
pub(crate) fn has_no_address(matches: &ArgMatches<'_>) -> bool
    ensures refused { IsTrue result → HasNoAddress (rows_of (found_of matches.now)) }
    ensures passed { result ≡ false → HasNoAddress (rows_of (found_of matches.now)) → ⊥ }
{
    match text_given(matches, "granule") {
        Some(text) => address(text).is_none(),
        None => false,
    }
}

/// The options that `explain` was given, or that stand in for them.
pub(crate) fn explain_options<'a>(matches: &ArgMatches<'a>) -> CheckOptions<'a>
    ensures lines { result.lines ≡ lines_asked (rows_of (found_of matches.now)) }
    ensures witness { result.witness ≡ has_word (rows_of (found_of matches.now)) (codes "witness") (codes "true") }
    ensures format { result.format ≡ answer_format (rows_of (found_of matches.now)) }
    ensures budget { IsNumberOr 1000000 (one_of (codes "budget") (rows_of (found_of matches.now))) result.budget }
    ensures seconds { IsNumberOrNone (one_of (codes "seconds") (rows_of (found_of matches.now))) result.seconds }
    ensures memory { IsNumberOrNone (one_of (codes "memory") (rows_of (found_of matches.now))) result.memory }
    ensures granule { IsAddressOrNone (first_of (codes "granule") (rows_of (found_of matches.now))) result.granule }
    ensures until { IsNumberOrNone (one_of (codes "until") (rows_of (found_of matches.now))) result.until }
    ensures around { IsNumberOr 16 (one_of (codes "around") (rows_of (found_of matches.now))) result.around }
    ensures html { option_map (λ s. s.now) result.html ≡ first_of (codes "html") (rows_of (found_of matches.now)) }
{
    CheckOptions {
        lines: lines_asked(matches),
        witness: is_switched(matches, "witness"),
        format: answer_format(matches),
        budget: number_or(matches, "budget", BUDGET),
        seconds: number_given(matches, "seconds"),
        memory: number_given(matches, "memory"),
        granule: granule_asked(matches),
        until: number_given(matches, "until"),
        around: number_or(matches, "around", AROUND),
        html: html_file(matches),
    }
}

// What `watch` was asked to require.
fn required(matches: &ArgMatches<'_>) -> Required
    ensures { HasRequired (rows_of (found_of matches.now)) result }
{
    Required {
        end: is_switched(matches, "require-end"),
        operations: number_or(matches, "require-operations", OPERATIONS),
        quiet: is_switched(matches, "require-quiet"),
        judged: is_switched(matches, "require-judged"),
    }
}

/// The options that `watch` was given, or that stand in for them.
pub(crate) fn watch_options<'a>(matches: &ArgMatches<'a>) -> WatchingOptions<'a>
    ensures { HasWatchOptions (rows_of (found_of matches.now)) result }
{
    WatchingOptions {
        format: format_asked(matches),
        answer: answer_format(matches),
        budget: number_or(matches, "budget", BUDGET),
        around: number_or(matches, "around", AROUND),
        keep_going: is_switched(matches, "keep-going"),
        required: required(matches),
        save: text_given(matches, "save"),
        html: html_file(matches),
    }
}

// The files that were named.
fn files_given<'a>(alloc: Global, matches: &ArgMatches<'a>) -> Result<Vec<&'a str>, AllocError>
    ensures { IfOk result (λ files. map (λ path. path.now) files.items ≡ unwrap_or (all_of (codes "file") (rows_of (found_of matches.now))) []) }
{
    match matches.get_strs("file") {
        Some(files) => Vec::from_slice(alloc, files),
        None => Ok(Vec::new(alloc)),
    }
}

/// The options that `cover` was given, or that stand in for them.
pub(crate) fn cover_options<'a>(
    alloc: Global,
    matches: &ArgMatches<'a>,
) -> Result<CoverOptions<'a>, AllocError>
    ensures { IfOk result (HasCoverOptions (rows_of (found_of matches.now))) }
{
    Ok(CoverOptions {
        goal: number_or(matches, "goal", GOAL),
        plan: text_given(matches, "plan"),
        require: number_or(matches, "require", REQUIRE),
        lines: lines_asked(matches),
        format: answer_format(matches),
        html: html_file(matches),
        files: files_given(alloc, matches)?,
    })
}
