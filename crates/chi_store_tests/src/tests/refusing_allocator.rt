//! An allocator that refuses one of the blocks that it is asked for.

use std::alloc::{AllocError, Allocator};
use std::sync::atomic::{AtomicU64, Ordering};

// Passes each call on to another allocator, but refuses the block of one number, counted from 1.
pub(crate) struct Refusing<B: Allocator> {
    inner: B,
    left: AtomicU64,
}

impl<B: Allocator> Refusing<B> {
    pub(crate) fn new(inner: B, refused: u64) -> Refusing<B> {
        Refusing {
            inner,
            left: AtomicU64::new(refused),
        }
    }

    // Whether the block of that number was asked for, and so refused.
    pub(crate) fn has_refused(&self) -> bool {
        self.left.load(Ordering::SeqCst).wrapping_sub(1) > u64::MAX / 2
    }
}

impl<B: Allocator + Drop> Drop for Refusing<B> {
    fn drop(self) {
        let Refusing { inner: _, left: _ } = self;
    }
}

// Counts a block down, and answers whether it is the one to refuse.
fn refuses(left: &AtomicU64) -> bool {
    left.fetch_sub(1, Ordering::SeqCst) == 1
}

unsafe impl<B: Allocator> Allocator for Refusing<B> {
    ghost dealloc_token = { λ heap ty ptr. B.dealloc_token heap.inner ty ptr };

    fn allocate(&self, size: usize, align: usize) -> Result<*mut u8, AllocError> {
        if refuses(&self.left) {
            return Err(AllocError);
        }
        self.inner.allocate(size, align)
    }

    unsafe fn deallocate(&self, ptr: *mut u8, size: usize, align: usize) {
        self.inner.deallocate(ptr, size, align);
    }
}
