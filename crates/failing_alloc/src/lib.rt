//! An allocator for tests, which refuses one call.
#![tactic(auto)]

use std::alloc::{AllocError, Allocator};
use std::cell::Cell;

/// Passes each call on but one: the one that is `left` calls away, counted from 1.
pub struct FailingAlloc<B: Allocator> {
    inner: B,
    left: Cell<u64>,
}

impl<B: Allocator> FailingAlloc<B> {
    /// It refuses nothing until `refuse` is called.
    pub fn new(inner: B) -> FailingAlloc<B> {
        FailingAlloc {
            inner,
            left: Cell::new(0),
        }
    }

    /// Has the `nth` call from now on refused, counted from 1; at 0 none is.
    pub fn refuse(&self, nth: u64) {
        self.left.set(nth);
    }

    /// Whether a call is still to be refused.
    pub fn is_armed(&self) -> bool {
        self.left.get() != 0
    }

    /// How many calls away the one is that is to be refused; 0 where none is.
    pub fn left(&self) -> u64 {
        self.left.get()
    }
}

impl<B: Allocator> Drop for FailingAlloc<B> {
    fn drop(self) {
        let Self { inner: _, left: _ } = self;
    }
}

// Whether this call is passed on.
fn admit(left: &Cell<u64>) -> bool {
    let n = left.get();
    left.set(n.saturating_sub(1));
    n != 1
}

unsafe impl<B: Allocator> Allocator for FailingAlloc<B> {
    ghost dealloc_token = { λ heap ty ptr. B.dealloc_token heap.inner ty ptr };

    fn allocate(&self, size: usize, align: usize) -> Result<*mut u8, AllocError> {
        if !admit(&self.left) {
            return Err(AllocError);
        }
        self.inner.allocate(size, align)
    }

    unsafe fn deallocate(&self, ptr: *mut u8, size: usize, align: usize) {
        self.inner.deallocate(ptr, size, align);
    }
}
