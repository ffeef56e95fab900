//! What C keeps of a session.

ghost use Rattle.std.specs.Prelude.{◌≡◌, None, Some, is_some, MatchOption};

use crate::slot::Slot;
use hir_text::BufferedSession;
use std::alloc::Global;
use std::mem;

/// A session that C keeps, or none.
#[repr(C)]
pub struct Handle {
    is_open: bool,
    slot: Slot,
    ghost same: { is_open ≡ is_some slot.kept },
}

impl Handle {
    pub(crate) fn is_open(&self) -> bool
        ensures { result ≡ is_some self.now.slot.kept }
    {
        self.is_open
    }

    /// No session.
    pub(crate) fn closed(alloc: Global) -> Handle
        ensures { result.slot.kept ≡ None }
    {
        Handle {
            is_open: false,
            slot: Slot::empty(alloc),
        }
    }

    pub(crate) fn of(session: Box<BufferedSession>) -> Handle
        ensures { result.slot.kept ≡ Some session.value }
    {
        Handle {
            is_open: true,
            slot: Slot::of(session),
        }
    }

    /// Takes the session, and leaves none.
    pub(crate) fn take(&mut self, alloc: Global) -> Option<Box<BufferedSession>>
        ensures taken { MatchOption result (self.old.slot.kept ≡ None)
            (λ b. self.old.slot.kept ≡ Some b.value) }
        ensures closed { self.new.slot.kept ≡ None }
    {
        mem::replace(self, Handle::closed(alloc)).into_box()
    }

    fn into_box(self) -> Option<Box<BufferedSession>>
        ensures { MatchOption result (self.slot.kept ≡ None) (λ b. self.slot.kept ≡ Some b.value) }
    {
        let Handle { is_open, slot } = self;
        if is_open {
            Some(slot.into_box())
        } else {
            slot.discard();
            None
        }
    }
}

impl Drop for Handle {
    fn drop(self) {
        drop(self.into_box());
    }
}
