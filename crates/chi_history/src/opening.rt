//! How a home was opened, and why an opening is refused.

use chi_fields::Region;
use std::collections::LinkedList;
use thiserror::Error;

/// The values of one opening: the region, how many requesters there are, and the words of the memory at the
/// opening. A home has no value of it: contracts see it.
#[derive(Drop)]
pub struct Opening {
    pub region: Region,
    pub requesters: u8,
    pub image: LinkedList<u64>,
}

/// Why a home is not opened. Each store says which of these it answers, and in which order.
#[derive(Clone, Copy, Debug, PartialEq, Eq, Error)]
pub enum OpenFault {
    #[error("requester count is refused")]
    RequesterCount,
    #[error("attempt count is refused")]
    AttemptCount,
    #[error("no memory")]
    Memory,
    #[error("region is over one line")]
    NotOneLine,
}
