//! Lists in the values of this crate. Contracts see each as the list of its items.
ghost use Rattle.std.specs.Prelude.{◌≡◌, ◌++◌, ◌∷◌, [], length, List, OnOk, OnErr, IfOk, IsTrue, ◌↔◌};
ghost use Rattle.smallvec.specs.SmallVec.{HasRoomFor};

use smallvec::SmallVec;
use std::alloc::{AllocError, Global};
use std::default::MadeWith;
use std::marker::Model;

/// A growable list of items.
pub struct Sequence<T> {
    items: Vec<T>,
}

// Handwritten, so that it is proved once, and not again for each type that contains a list.
impl<T: Drop> Drop for Sequence<T> {
    fn drop(self) {
        let Self { items: _ } = self;
    }
}

impl<T> Model for Sequence<T> {
    ghost Value = { List T };

    ghost view = { λ s. s.items.items };
}

impl<T> Sequence<T> {
    /// Returns an empty list.
    pub fn new(alloc: Global) -> Self
        ensures { result ≡ [] }
    {
        Sequence {
            items: Vec::new(alloc),
        }
    }

    /// Returns the items, in order.
    pub fn as_slice(&self) -> &[T]
        ensures { result.now ≡ self.now }
    {
        &self.items
    }

    /// Returns the number of items.
    pub fn len(&self) -> usize
        ensures { result ≡ length self.now }
    {
        self.items.len()
    }

    /// Returns whether there are no items.
    pub fn is_empty(&self) -> bool
        ensures { IsTrue result ↔ (self.now ≡ []) }
    {
        self.items.is_empty()
    }
}

impl<T: Drop> Sequence<T> {
    /// Appends an item. If it returns `AllocError`, the list has not changed.
    #[inline(always)]
    pub fn push(&mut self, item: T) -> Result<(), AllocError>
        ensures ok { OnOk result (self.new ≡ self.old ++ item ∷ []) }
        ensures err { OnErr result (self.new ≡ self.old) }
    {
        if self.items.len() >= self.items.capacity() {
            self.items.reserve(1)?;
        }
        self.items.push_reserved(item);
        Ok(())
    }
}

impl<T> From<Vec<T>> for Sequence<T> {
    ghost from_gives = { λ items s. s ≡ items.items };

    fn from(items: Vec<T>) -> Self {
        Sequence { items }
    }
}

impl<T: Clone> Clone for Sequence<T> {
    ghost use Rattle.std.specs.List.{AllZip};

    ghost is_clone = { λ s t. AllZip T.is_clone s t };

    fn clone(&self) -> Result<Self, AllocError> {
        Ok(Sequence {
            items: self.items.clone()?,
        })
    }
}

impl<T: PartialEq> PartialEq for Sequence<T> {
    ghost use Rattle.std.specs.Cmp.Lexicographic.{pointwise, lists_per};

    ghost eq = { λ s t. pointwise T.eq s t };

    ghost laws = { lists_per T.laws };

    fn eq(&self, other: &Self) -> bool {
        self.items == other.items
    }
}

/// A list with room for `N` items in the value itself; for more it allocates memory.
pub struct ShortSequence<T, const N: usize> {
    items: SmallVec<T, N>,
}

// Handwritten, so that it is proved once, and not again for each type that contains a list.
impl<T: Drop, const N: usize> Drop for ShortSequence<T, N> {
    fn drop(self) {
        let Self { items: _ } = self;
    }
}

impl<T, const N: usize> Model for ShortSequence<T, N> {
    ghost Value = { List T };

    ghost view = { λ s. s.items.items };
}

impl<T, const N: usize> ShortSequence<T, N> {
    /// Returns the items, in order.
    pub fn as_slice(&self) -> &[T]
        ensures { result.now ≡ self.now }
    {
        self.items.as_slice()
    }
}

/// Makes room for more items than the value itself has room for. The longest lists that are read item by item have 16 items, so they grow
/// once.
#[cold]
#[inline(never)]
fn make_room<T: Default + Drop, const N: usize>(
    items: &mut SmallVec<T, N>,
) -> Result<(), AllocError>
    ensures items { items.new.items ≡ items.old.items }
    ensures ok { OnOk result (HasRoomFor items.new 1) }
    ensures err { OnErr result (items.new ≡ items.old) }
{
    items.reserve(14)
}

impl<T: Default + Drop, const N: usize> ShortSequence<T, N> {
    /// Returns an empty list.
    pub fn new(alloc: Global) -> Self
        ensures { result ≡ [] }
    {
        ShortSequence {
            items: SmallVec::new(alloc),
        }
    }

    /// Appends an item. It cannot fail for the first `N` items. If it returns `AllocError`, the list has not changed.
    #[inline(always)]
    pub fn push(&mut self, item: T) -> Result<(), AllocError>
        ensures ok { OnOk result (self.new ≡ self.old ++ item ∷ []) }
        ensures err { OnErr result (self.new ≡ self.old) }
    {
        let items = &mut self.items;
        if items.len() >= items.capacity() {
            make_room(items)?;
        }
        items.push_reserved(item);
        Ok(())
    }
}

impl<T: Copy + Default, const N: usize> ShortSequence<T, N> {
    /// Returns a list of these items. It allocates memory only if there are more than `N`.
    pub fn of(alloc: Global, items: &[T]) -> Result<Self, AllocError>
        ensures { IfOk result (λ list. list ≡ items.now) }
    {
        Ok(ShortSequence {
            items: SmallVec::from_slice(alloc, items)?,
        })
    }
}

impl<T: MadeWith<Global> + Clone, const N: usize> Clone for ShortSequence<T, N> {
    ghost use Rattle.std.specs.List.{AllZip};

    ghost is_clone = { λ s t. AllZip T.is_clone s t };

    fn clone(&self) -> Result<Self, AllocError> {
        Ok(ShortSequence {
            items: self.items.clone()?,
        })
    }
}

impl<T: PartialEq, const N: usize> PartialEq for ShortSequence<T, N> {
    ghost use Rattle.std.specs.Cmp.Lexicographic.{pointwise, lists_per};

    ghost eq = { λ s t. pointwise T.eq s t };

    ghost laws = { lists_per T.laws };

    fn eq(&self, other: &Self) -> bool {
        self.as_slice() == other.as_slice()
    }
}
