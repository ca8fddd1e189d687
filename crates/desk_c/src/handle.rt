// What C holds.
ghost use Rattle.std.specs.Prelude.{◌≡◌, Option, None, Some, IsSome, IsNone, IsTrue, IsFalse, MatchOption};
ghost use Rattle.desk_c.specs.declared.kept.Kept.{Kept};
ghost use Rattle.desk_c.specs.Owned.{maybe_owns};

use crate::kept::Kept;
use crate::loose::Loose;
use std::alloc::Global;
use std::marker::Model;
use std::mem;
use std::ptr::null_mut;

/// What is kept, on the heap, or nothing.
#[repr(C)]
#[derive(Drop)]
pub struct Handle {
    at: *mut u8,
    alloc: Global,
    pub(crate) ghost value: { Option Kept },
}

impl Model for Handle {
    ghost also_owns = { λ h. maybe_owns h.alloc h.at h.value };
}

impl Handle {
    fn of(loose: Loose<Kept, Global>) -> Handle
        ensures { result.value ≡ Some loose.value }
    {
        let Loose { at, alloc } = loose;
        Handle {
            at: at as *mut u8,
            alloc,
        }
    }

    fn none(alloc: Global) -> Handle
        ensures { result.value ≡ None }
    {
        Handle {
            at: null_mut(),
            alloc,
        }
    }

    fn into_loose(self) -> Loose<Kept, Global>
        requires { IsSome self.value }
        ensures { self.value ≡ Some result.value }
    {
        let Handle { at, alloc } = self;
        Loose {
            at: at as *mut Kept,
            alloc,
        }
    }
}

/// A handle of C's: all zeros where it holds nothing. It is not copied.
#[repr(C)]
#[derive(Drop)]
pub struct Desk {
    pub(crate) handle: Handle,
    is_full: bool,
    ghost full: { IsTrue is_full → IsSome handle.value },
    ghost empty: { IsFalse is_full → IsNone handle.value },
}

impl Desk {
    // What it held, and it holds nothing.
    pub(crate) fn take(&mut self, alloc: Global) -> Option<Box<Kept>>
        ensures emptied { self.new.handle.value ≡ None }
        ensures held { MatchOption result (self.old.handle.value ≡ None) (λ kept. self.old.handle.value ≡ Some kept.value) }
    {
        let none = Desk {
            handle: Handle::none(alloc),
            is_full: false,
        };
        let Desk { handle, is_full } = mem::replace(self, none);
        if is_full {
            Some(handle.into_loose().into_box())
        } else {
            None
        }
    }

    // It holds this.
    pub(crate) fn put(&mut self, kept: Box<Kept>)
        ensures { self.new.handle.value ≡ Some kept.value }
    {
        *self = Desk {
            handle: Handle::of(Loose::of(kept)),
            is_full: true,
        };
    }
}
