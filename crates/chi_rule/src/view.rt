//! What the rule of a store knows of each seat. No value of these types is made: contracts and proofs see them.

use chi_history::{Entry, Opening};
use std::collections::LinkedList;

/// What one of two seats knew that were made one: the numbers that it held, and the history that it had seen.
#[derive(Drop)]
pub struct Half {
    pub held: LinkedList<u8>,
    pub seen: LinkedList<Entry>,
}

/// What a seat knows: the values of its opening, the numbers that it holds, and the history that it has seen.
///
/// `fresh` marks the view that a store begins with before its opening is set, and `live` one that carries the
/// opening. A seat that was joined away is neither. After two seats were made one, `joint` keeps what both knew
/// until the next look.
#[derive(Drop)]
pub struct View {
    pub fresh: bool,
    pub live: bool,
    pub opening: Opening,
    pub held: LinkedList<u8>,
    pub seen: LinkedList<Entry>,
    pub joint: Option<(Half, Half)>,
}
