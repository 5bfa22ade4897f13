//! A list that contracts see as the list of its elements.

ghost use Rattle.std.specs.Prelude.{◌≡◌, []};

use std::alloc::AllocError;
use std::marker::Model;

/// A list, seen by contracts as the list of its elements.
#[derive(Debug, Drop)]
pub struct Items<T> {
    inner: Vec<T>,
}

impl<T> Model for Items<T> {
    ghost use Rattle.std.specs.Prelude.{List};

    ghost Value = { List T };

    ghost view = { λ t. t.inner.items };
}

impl<T> Items<T> {
    /// Keeps the list as it is.
    pub fn new(items: Vec<T>) -> Items<T>
        ensures { result ≡ items.items }
    {
        Items { inner: items }
    }

    /// The list, lent.
    pub fn as_slice(&self) -> &[T]
        ensures { result.now ≡ self.now }
    {
        self.inner.as_slice()
    }

    /// The list, given back.
    pub fn into_inner(self) -> Vec<T>
        ensures { result.items ≡ self }
    {
        self.inner
    }
}

impl<T: Drop> Items<T> {
    /// No element is left. No memory is taken.
    pub fn clear(&mut self)
        ensures { self.new ≡ [] }
    {
        self.inner.clear();
    }
}

impl<T: Clone> Clone for Items<T> {
    ghost use Rattle.std.specs.List.{AllZip};

    ghost is_clone = { λ s t. AllZip T.is_clone s t };

    fn clone(&self) -> Result<Items<T>, AllocError> {
        let inner = self.inner.clone()?;
        Ok(Items { inner })
    }
}
