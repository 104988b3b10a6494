//! One step of a history.

use chi_fields::Access;
use chi_lanes::Reply;

/// A completed operation: whose it was, what it did, and what was answered. A history is a list of these.
#[derive(Clone, Copy, Debug)]
pub struct Entry {
    pub src: u8,
    pub access: Access,
    pub reply: Reply,
}
