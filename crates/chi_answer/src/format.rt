//! The form of an answer.

/// In which form an answer or counts are written: as lines of text, or as JSON, an object on each line.
#[derive(Clone, Copy, Debug, PartialEq, Eq)]
pub enum AnswerFormat {
    Text,
    Json,
}
