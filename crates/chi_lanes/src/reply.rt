//! What the home answers.

/// A completion, without data or with the data packet that holds the original bytes.
#[derive(Clone, Copy, Debug, PartialEq, Eq)]
pub enum Reply {
    Comp,
    CompData([u8; 16]),
}
