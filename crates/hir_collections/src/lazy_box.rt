//! A value in an allocation of its own, which the first write makes. It is modelled as that value, blank
//! before the first write.
ghost use Rattle.std.specs.Prelude.{◌≡◌, Some, unwrap_or, option_copied, IfOk, IfErr, OnOk, OnErr, IsSome};
ghost use Rattle.std.specs.Borrow.{sem};
ghost use Rattle.hir_collections.specs.internal.LazyBox.{lends_made};
ghost use Rattle.hir_collections.specs.LazyBox.{lends_value};

use crate::empty::Empty;
use crate::{Boxed, ExactEq, TryClone};
use std::alloc::{AllocError, AllocFailed, Global};
use std::marker::Model;

/// A value in an allocation of its own, modelled as that value. Until the first write it is blank and takes
/// no memory.
pub struct LazyBox<T: Empty> {
    place: Option<Boxed<T>>,
    alloc: Global,
}

/// Drops the value if it has memory. It is a function so that it is proved once, and that each drop is a
/// call.
impl<T: Empty + Drop> Drop for LazyBox<T> {
    fn drop(self) {
        let LazyBox { place, alloc: _ } = self;
    }
}

impl<T: Empty> Model for LazyBox<T> {
    ghost use Rattle.std.specs.Prelude.{unwrap_or};

    ghost Value = { T };

    ghost coded = { T.code };

    ghost view = { λ r. unwrap_or r.place T.empty_value };
}

/// Lends the value for writing, if it has memory.
fn made_mut<T>(place: &mut Option<Boxed<T>>) -> &mut T
    requires { IsSome place.old }
    ensures* lends { sem 𝓛 (lends_made T.row place.entry result) }
    ensures value { place.old ≡ Some result.now }
{
    match place {
        Some(value) => value.get_mut(),
        None => unreachable!(),
    }
}

/// Allocates memory for the value if it has none.
fn fill<T: Empty + Drop>(place: &mut Option<Boxed<T>>, alloc: Global) -> Result<(), AllocError>
    ensures ok { OnOk result (place.new ≡ Some (unwrap_or place.old T.empty_value)) }
    ensures err { OnErr result (place.new ≡ place.old) }
{
    if place.is_none() {
        *place = Some(Boxed::new(alloc, T::empty_value(alloc))?);
    }
    Ok(())
}

impl<T: Empty> LazyBox<T> {
    /// Returns the blank value. It takes its memory from `alloc`, and none yet.
    pub fn new(alloc: Global) -> LazyBox<T>
        ensures { result ≡ T.empty_value }
    {
        LazyBox { place: None, alloc }
    }

    /// Returns this value, for which it allocates memory.
    ///
    /// Returns an error if the allocation fails: the error gives the value back.
    pub fn of(alloc: Global, value: T) -> Result<LazyBox<T>, AllocFailed<T>>
        ensures ok { IfOk result (λ lazy_box. lazy_box ≡ value) }
        ensures value_returned { IfErr result (λ failed. failed.value ≡ value) }
    {
        Ok(LazyBox {
            place: Some(Boxed::new(alloc, value)?),
            alloc,
        })
    }

    /// Returns the value, if it has memory. If it has none, it is blank.
    pub fn get(&self) -> Option<&T>
        ensures { unwrap_or (option_copied result) T.empty_value ≡ self.now }
    {
        match &self.place {
            Some(value) => Some(value.get()),
            None => None,
        }
    }

    /// Returns a blank value with the allocator of this value.
    pub fn empty_value(&self) -> T
        ensures { result ≡ T.empty_value }
    {
        T::empty_value(self.alloc)
    }

    /// Returns the value, or this blank one if it has no memory.
    pub fn or_empty<'a>(&'a self, empty_value: &'a T) -> &'a T
        requires { empty_value.now ≡ T.empty_value }
        ensures { result.now ≡ self.now }
    {
        match &self.place {
            Some(value) => value.get(),
            None => empty_value,
        }
    }
}

impl<T: Empty + Drop> LazyBox<T> {
    /// Lends the value for writing. The first call allocates its memory.
    ///
    /// Returns an error if the allocation fails: the value is unchanged.
    pub fn get_or_alloc(&mut self) -> Result<&mut T, AllocError>
        ensures* writes_back { sem 𝓛 (lends_value T.row T.Empty self.entry result) }
        ensures value { IfOk result (λ value. value.now ≡ self.old) }
    {
        let alloc = self.alloc;
        fill(&mut self.place, alloc)?;
        Ok(made_mut(&mut self.place))
    }
}

/// Values are equal whether or not they have memory.
impl<T: Empty + Drop + PartialEq> PartialEq for LazyBox<T> {
    ghost eq = { T.eq };

    ghost laws = { T.PartialEq.laws };

    fn eq(&self, other: &LazyBox<T>) -> bool {
        let empty_value = self.empty_value();
        *self.or_empty(&empty_value) == *other.or_empty(&empty_value)
    }
}

impl<T: Empty + Drop + Eq> Eq for LazyBox<T> {
    ghost laws = { T.Eq.laws };
}

impl<T: Empty + Drop + ExactEq> ExactEq for LazyBox<T> {
    ghost eq_decides = { T.eq_decides };
}

impl<T: Empty + TryClone> Clone for LazyBox<T> {
    ghost is_clone = { λ lazy_box copy. copy ≡ lazy_box };

    fn clone(&self) -> Result<LazyBox<T>, AllocError> {
        match &self.place {
            Some(value) => Ok(LazyBox {
                place: Some(value.try_clone()?),
                alloc: self.alloc,
            }),
            None => Ok(LazyBox::new(self.alloc)),
        }
    }
}

impl<T: Empty + TryClone> TryClone for LazyBox<T> {
    ghost clone_is_same = { λ lazy_box copy same. same };
}
