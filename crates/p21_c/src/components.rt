//! The handles that C keeps, and boxes with their fields in sight. No other module can take either apart, and neither may be
//! let go: what a handle held leaves this module as a box alone, which is freed where it is let go.
ghost use Rattle.std.specs.Prelude.{◌≡◌, Option, None, Some, MatchOption};
ghost use Rattle.std.specs.Box.Ownership.{box_owns};
ghost use Rattle.p21_c.specs.Owned.{held_code};
ghost use Rattle.p21_c.specs.declared.contents.Content.{Content};

use crate::contents::Content;
use std::alloc::{Allocator, Global};
use std::marker::Model;
use std::ptr;

/// What C keeps between calls: nothing where the pointer is null, else a content in a block of its own.
#[repr(C)]
pub struct Handle {
    at: *mut u8,
    alloc: Global,
    pub ghost value: { Option Content } by { held_code },
}

impl Model for Handle {
    ghost use Rattle.p21_c.specs.Owned.{handle_owns};

    ghost also_owns = { λ h. handle_owns h.alloc h.at h.value };
}

impl Handle {
    /// A handle that holds nothing.
    pub(crate) fn empty(alloc: Global) -> Handle
        ensures { result.value ≡ None }
    {
        Handle {
            at: ptr::null_mut(),
            alloc,
        }
    }

    /// A handle that holds what a box held.
    pub(crate) fn of_components(components: BoxComponents<Content, Global>) -> Handle
        ensures { result.value ≡ Some components.value }
    {
        let BoxComponents { ptr, alloc } = components;
        Handle {
            at: ptr as *mut u8,
            alloc,
        }
    }

    /// What a box held, if the handle holds anything.
    pub(crate) fn into_components(self) -> Option<BoxComponents<Content, Global>>
        ensures { MatchOption result (self.value ≡ None) (λ components. self.value ≡ Some components.value) }
    {
        let Handle { at, alloc } = self;
        if at == ptr::null_mut() {
            None
        } else {
            Some(BoxComponents {
                ptr: at as *mut Content,
                alloc,
            })
        }
    }
}

/// A box as its pointer and its allocator.
pub(crate) struct BoxComponents<T, A: Allocator> {
    ptr: *mut T,
    alloc: A,
    pub ghost value: { T },
}

impl<T, A: Allocator> Model for BoxComponents<T, A> {
    ghost also_owns = { λ p. box_owns (A.dealloc_token p.alloc) T.row p.ptr p.value };
}

impl<T, A: Allocator> BoxComponents<T, A> {
    pub(crate) fn of(b: Box<T, A>) -> BoxComponents<T, A>
    where
        T: Drop,
        ensures { result.value ≡ b.value }
    {
        let (ptr, alloc) = Box::into_raw_with_allocator(b);
        BoxComponents { ptr, alloc }
    }

    pub(crate) fn into_box(self) -> Box<T, A>
        ensures { result.value ≡ self.value }
    {
        let BoxComponents { ptr, alloc } = self;
        unsafe { Box::from_raw(alloc, ptr) }
    }
}
