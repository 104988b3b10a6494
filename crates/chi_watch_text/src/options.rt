//! How lines are watched.

use crate::line_format::LineFormat;
use crate::required::Required;
use chi_answer::AnswerFormat;

/// How lines are watched. `format` is what they tell, and `answer` the form in which what is found is written. `budget` is how many
/// states are looked at for an answer. `around` is how many operations of a granule are shown at most before the one that is blamed.
/// With `keep_going` a granule that no order explains does not end it. With `keep_lines` the lines that are taken are kept.
/// `required` changes nothing of what is found.
#[derive(Clone, Copy, Debug, PartialEq, Eq)]
pub struct WatchOptions {
    pub format: LineFormat,
    pub answer: AnswerFormat,
    pub budget: u64,
    pub around: usize,
    pub keep_going: bool,
    pub keep_lines: bool,
    pub required: Required,
}
