//! What a check, a watch and a count may be told.

use chi_answer::AnswerFormat;
use chi_watch_text::{LineFormat, Required};

/// How a trace is checked. With `lines` the input is lines that tell this, and no trace. With `witness` the operations of a
/// trace that is explained are written in the order found. `format` is the form in which the answer is written. `budget` is how
/// many states of each granule are looked at for an answer. With `seconds` or `memory` fewer are: no larger search begins that may
/// take the time or the bytes beyond these. With `granule` the granule at this address alone is judged, and with `until` what had
/// happened by that time. `around` is how many operations of a granule are shown before the one that is blamed. `html` is the path
/// of a file that is to be the page of the trace.
#[derive(Clone, Copy)]
pub struct CheckOptions<'a> {
    pub lines: Option<LineFormat>,
    pub witness: bool,
    pub format: AnswerFormat,
    pub budget: u64,
    pub seconds: Option<u64>,
    pub memory: Option<u64>,
    pub granule: Option<u64>,
    pub until: Option<u64>,
    pub around: u64,
    pub html: Option<&'a str>,
}

/// How lines are watched. `format` is what they tell, and `answer` the form in which what is found is written. `budget` is how many
/// states are looked at for an answer. `around` is how many operations of a granule are shown at most before the one that is blamed.
/// With `keep_going` a granule that no order explains does not end it. `required` changes nothing of what is found. `save` is the
/// path of a file that is to be the lines that tell of the granule that is listed first, where one is listed that no order explains,
/// or all flits up to there, and `html` that of one that is to be its page.
#[derive(Clone, Copy)]
pub struct WatchingOptions<'a> {
    pub format: LineFormat,
    pub answer: AnswerFormat,
    pub budget: u64,
    pub around: u64,
    pub keep_going: bool,
    pub required: Required,
    pub save: Option<&'a str>,
    pub html: Option<&'a str>,
}

/// What is counted, and how. `goal` is how many operations a bin has to count to be covered, where `plan`, the path of a file of rules,
/// says no other, and `require` how many of a hundred bins have to be. With `lines` the inputs are lines that tell this, and no traces. `format` is the form in which the counts are written. `files` are the paths of the
/// inputs; where there is none it is the standard input. `html` is the path of a file that is to be the page of the counts.
#[derive(Drop)]
pub struct CoverOptions<'a> {
    pub goal: u64,
    pub plan: Option<&'a str>,
    pub require: u64,
    pub lines: Option<LineFormat>,
    pub format: AnswerFormat,
    pub html: Option<&'a str>,
    pub files: Vec<&'a str>,
}
