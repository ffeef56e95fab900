//! A box as a pointer that C may keep.

ghost use Rattle.std.specs.Prelude.{◌≡◌, Option, None, Some, IsSome};
ghost use Rattle.hir_text.specs.declared.buffered.BufferedSession.{BufferedSession};
ghost use Rattle.hir_c.specs.Kept.{kept_coded};

use crate::parts::Parts;
use hir_text::BufferedSession;
use std::alloc::{Allocator, Global};
use std::marker::Model;
use std::ptr;

/// No session, or the block of one. It has no drop, so that none is forgotten: `into_box` or `discard` takes
/// each.
#[repr(C)]
pub struct Slot {
    at: *mut u8,
    alloc: Global,
    pub ghost kept: { Option BufferedSession } by { kept_coded },
}

impl Model for Slot {
    ghost use Rattle.hir_c.specs.Kept.{kept_at};

    ghost also_owns = { λ s. kept_at (⟦<Global as Allocator>⟧.dealloc_token s.alloc) s.at s.kept };
}

impl Slot {
    /// No session, wherever the pointer points.
    pub(crate) fn vacant(alloc: Global, at: *mut u8) -> Slot
        ensures { result.kept ≡ None }
    {
        Slot { at, alloc }
    }

    pub(crate) fn of_parts(parts: Parts<BufferedSession, Global>) -> Slot
        ensures { result.kept ≡ Some parts.value }
    {
        let Parts { ptr, alloc } = parts;
        let at = ptr as *mut u8;
        Slot { at, alloc }
    }

    pub(crate) fn into_parts(self) -> Parts<BufferedSession, Global>
        requires { IsSome self.kept }
        ensures { self.kept ≡ Some result.value }
    {
        let Slot { at, alloc } = self;
        let ptr = at as *mut BufferedSession;
        Parts { ptr, alloc }
    }

    /// Ends a slot that keeps nothing.
    pub(crate) fn discard(self)
        requires { self.kept ≡ None }
    {
        let Slot { at: _, alloc: _ } = self;
    }

    pub(crate) fn empty(alloc: Global) -> Slot
        ensures { result.kept ≡ None }
    {
        let at = nowhere();
        Slot::vacant(alloc, at)
    }

    pub(crate) fn of(session: Box<BufferedSession>) -> Slot
        ensures { result.kept ≡ Some session.value }
    {
        Slot::of_parts(Parts::of(session))
    }

    pub(crate) fn into_box(self) -> Box<BufferedSession>
        requires { IsSome self.kept }
        ensures { self.kept ≡ Some result.value }
    {
        self.into_parts().into_box()
    }
}

fn nowhere() -> *mut u8 {
    ptr::null_mut()
}
