//! How often each of some things came.

use std::alloc::{AllocError, Global};

/// How often each of some things came, by their numbers.
#[derive(Drop)]
pub(crate) struct Counts {
    counts: Vec<u64>,
}

impl Counts {
    /// So many things, of which none came.
    pub(crate) fn new(alloc: Global, things: usize) -> Result<Counts, AllocError> {
        Ok(Counts {
            counts: vec![in alloc; 0; things]?,
        })
    }

    /// The thing of this number came once more.
    pub(crate) fn add(&mut self, number: usize) {
        if let Some(count) = self.counts.get_mut(number) {
            *count = count.wrapping_add(1);
        }
    }

    /// How often the thing of this number came.
    pub(crate) fn count(&self, number: usize) -> u64 {
        self.counts.get(number).copied().unwrap_or(0)
    }

    /// How many things came.
    pub(crate) fn came(&self) -> usize {
        self.counts.iter().filter(|count| **count > 0).count()
    }
}
