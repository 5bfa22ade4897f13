//! A value in memory of its own, which contracts see as the value.

ghost use Rattle.std.specs.Prelude.{◌≡◌, IfOk};

use std::alloc::{AllocError, Global};
use std::marker::Model;

/// A value in memory of its own, so that a type that may hold it stays small. Contracts see it as the value.
#[derive(Debug, Drop)]
pub struct Boxed<T> {
    inner: Box<T>,
}

impl<T> Model for Boxed<T> {
    ghost Value = { T };

    ghost view = { λ h. h.inner.value };
}

impl<T> Boxed<T> {
    /// The value, lent.
    pub fn get(&self) -> &T
        ensures { result.now ≡ self.now }
    {
        &*self.inner
    }

    /// The value, given back.
    pub fn into_inner(self) -> T
        ensures { result ≡ self }
    {
        Box::into_inner(self.inner)
    }
}

impl<T: Drop> Boxed<T> {
    /// Keeps the value.
    pub fn new(alloc: Global, value: T) -> Result<Boxed<T>, AllocError>
        ensures { IfOk result (λ held. held ≡ value) }
    {
        let inner = Box::new(alloc, value)?;
        Ok(Boxed { inner })
    }
}

impl<T: Clone + Drop> Boxed<T> {
    /// Keeps a copy of the value.
    pub fn copy_of(alloc: Global, value: &T) -> Result<Boxed<T>, AllocError>
        ensures { IfOk result (λ held. T.is_clone value.now held) }
    {
        let copy = value.clone()?;
        Boxed::new(alloc, copy)
    }
}

impl<T: Clone> Clone for Boxed<T> {
    ghost is_clone = { λ s t. T.is_clone s t };

    fn clone(&self) -> Result<Boxed<T>, AllocError> {
        let inner = self.inner.clone()?;
        Ok(Boxed { inner })
    }
}

impl<T: PartialEq> PartialEq for Boxed<T> {
    ghost eq = { λ x y. T.eq x y };

    ghost laws = { T.laws };

    fn eq(&self, other: &Self) -> bool {
        *self.get() == *other.get()
    }
}

impl<T: Eq> Eq for Boxed<T> {
    ghost laws = { T.Eq.laws };
}
