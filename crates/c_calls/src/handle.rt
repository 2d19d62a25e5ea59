//! Handles: the two machine words in the memory of C that hold a dictionary, for all calls of C; and the slots in them.
//!
//! A [`Handle`] is a struct that exported functions take, and such a struct is not generic. So there is one, with a box of
//! [`crate::content::Content`]. Its content is a dictionary of either kind, for the calls of this crate, or one of two levels,
//! for those of `level_calls`. A call finds no dictionary where the handle holds one of the other sort.

ghost use Rattle.std.specs.Prelude.{◌≡◌, Option, Some, None, IsSome, true, false};
ghost use Rattle.std.specs.Option.{option_map};
ghost use Rattle.c_calls.specs.declared.content.Content.{Content as Kept};
ghost use Rattle.c_calls.specs.Held.{is_kept, kept_code};

use crate::content::Content;
use std::alloc::Global;
use std::marker::Model;
use std::mem;

/// The pointer of a dictionary's box, or any pointer where no dictionary is held.
#[repr(C)]
#[derive(Drop)]
pub struct Slot {
    at: *mut u8,
    ghost kept: { Option Kept } by { kept_code },
}

impl Model for Slot {
    ghost use Rattle.c_calls.specs.Held.{owned};

    ghost also_owns = { λ s. owned s.kept s.at };
}

// A slot may go to another thread, with its dictionary.
unsafe impl Send for Slot {}

impl Slot {
    // The slot of a box.
    pub(crate) fn of(content: Box<Content>) -> Slot
        ensures { result.kept ≡ Some content.value }
    {
        let at = Box::into_raw(content);
        Slot {
            at: at.cast::<u8>(),
        }
    }

    // The box of a slot that holds one.
    pub(crate) fn into_box(self, alloc: Global) -> Box<Content>
        requires { IsSome self.kept }
        ensures { self.kept ≡ Some result.value }
    {
        let Slot { at } = self;
        let at = at.cast::<Content>();
        unsafe { Box::from_raw(alloc, at) }
    }

    // The slot without a box.
    pub(crate) fn empty() -> Slot
        ensures { result.kept ≡ None }
    {
        Slot {
            at: std::ptr::null_mut(),
        }
    }
}

/// A dictionary, or none. A handle of zeros holds none.
#[repr(C)]
#[derive(Drop)]
pub struct Handle {
    slot: Slot,
    held: bool,
    ghost tied: { is_kept slot.kept ≡ held },
}

// A function for types that may go to another thread.
fn crosses<T: Send>() {}

/// Says that a handle may go to another thread. The call is for a proof, and does nothing.
pub fn handles_cross() {
    crosses::<Handle>();
}

impl Handle {
    /// Returns the handle of a dictionary.
    pub fn of(content: Box<Content>) -> Handle
        ensures { result.slot.kept ≡ Some content.value }
    {
        Handle {
            slot: Slot::of(content),
            held: true,
        }
    }

    /// Returns the handle without a dictionary.
    pub fn empty() -> Handle
        ensures { result.slot.kept ≡ None }
    {
        Handle {
            slot: Slot::empty(),
            held: false,
        }
    }

    /// Takes the dictionary out of the handle, if it holds one.
    pub fn take(&mut self, alloc: Global) -> Option<Box<Content>>
        ensures taken { option_map (λ content. content.value) result ≡ self.old.slot.kept }
        ensures empty { self.new.slot.kept ≡ None }
    {
        let Handle { slot, held } = mem::replace(self, Handle::empty());
        if held {
            Some(slot.into_box(alloc))
        } else {
            None
        }
    }

    /// Lets the handle hold a dictionary, in the place of the one that it held, which is freed.
    pub fn put(&mut self, alloc: Global, content: Box<Content>)
        ensures holds { self.new.slot.kept ≡ Some content.value }
    {
        let old = self.take(alloc);
        *self = Handle::of(content);
        drop(old);
    }

    /// Frees the dictionary that the handle holds, if it holds one. The handle holds none afterwards.
    pub fn free(&mut self, alloc: Global)
        ensures empty { self.new.slot.kept ≡ None }
    {
        drop(self.take(alloc));
    }
}
