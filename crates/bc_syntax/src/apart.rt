//! Values in allocations of their own. Contracts see each as the value itself.
ghost use Rattle.std.specs.Prelude.{◌≡◌, IfOk};

use std::alloc::{AllocError, Global};
use std::marker::Model;

/// A value in its own allocation, so that what contains it stays small. Use it for values that are rare and large.
pub struct Apart<T> {
    value: Box<T>,
}

impl<T: Drop> Drop for Apart<T> {
    fn drop(self) {
        let Self { value: _ } = self;
    }
}

impl<T> Model for Apart<T> {
    ghost Value = { T };

    ghost view = { λ a. a.value.value };
}

impl<T> Apart<T> {
    /// Returns the value.
    pub fn get(&self) -> &T
        ensures { result.now ≡ self.now }
    {
        self.value.as_ref()
    }
}

impl<T: Drop> Apart<T> {
    /// Stores a value in an allocation of its own.
    pub fn new(alloc: Global, value: T) -> Result<Self, AllocError>
        ensures { IfOk result (λ made. made ≡ value) }
    {
        let value = Box::new(alloc, value)?;
        Ok(Apart { value })
    }
}

impl<T: Clone> Clone for Apart<T> {
    ghost is_clone = { λ s t. T.is_clone s t };

    fn clone(&self) -> Result<Self, AllocError> {
        Ok(Apart {
            value: self.value.clone()?,
        })
    }
}

impl<T: PartialEq> PartialEq for Apart<T> {
    ghost eq = { T.eq };

    ghost laws = { T.laws };

    fn eq(&self, other: &Self) -> bool {
        *self.get() == *other.get()
    }
}
