//! A `Vec` whose contract is the plain list of its elements: nothing holds of it but that.
//!
//! A copy of elements that aren't `Copy` takes a function that gives a copy of one; the copy of the
//! list then equals its source.
ghost use Rattle.std.specs.Prelude.{◌≡◌, ◌++◌, ◌∷◌, ◌+◌, ◌<◌, [], length, IfOk, IfErr, OnOk, OnErr};
ghost use Rattle.std.specs.Prelude.{slice_get, option_copied};

use std::alloc::{AllocError, AllocFailed, Global};
use std::marker::Model;

/// A list of elements, in order: a `Vec` whose contract is the list alone.
#[derive(Drop)]
pub struct Items<T> {
    list: Vec<T>,
}

impl<T> Model for Items<T> {
    ghost use Rattle.std.specs.Prelude.{List};

    ghost Value = { List T };

    ghost view = { λ a. a.list.items };
}

impl<T> Items<T> {
    /// The empty list. It takes no memory.
    pub fn new(alloc: Global) -> Items<T>
        ensures { result ≡ [] }
    {
        Items {
            list: Vec::new(alloc),
        }
    }

    /// The elements of a `Vec`, without taking memory.
    pub fn from_vec(list: Vec<T>) -> Items<T>
        ensures { result ≡ list.items }
    {
        Items { list }
    }

    /// The elements as a `Vec`, without taking memory.
    pub fn into_vec(self) -> Vec<T>
        ensures { result.items ≡ self }
    {
        let Items { list } = self;
        list
    }

    /// The elements as a slice.
    pub fn as_slice(&self) -> &[T]
        ensures { result.now ≡ self.now }
    {
        self.list.as_slice()
    }

    /// How many elements there are.
    pub fn len(&self) -> usize
        ensures { result ≡ length self.now }
    {
        self.list.len()
    }

    /// Puts an element at the end. An `Err` gives it back, and the list is as before.
    pub fn push(&mut self, value: T) -> Result<(), AllocFailed<T>>
        ensures ok { OnOk result (self.new ≡ self.old ++ value ∷ []) }
        ensures err { OnErr result (self.new ≡ self.old) }
        ensures returned { IfErr result (λ refused. refused.value ≡ value) }
    {
        self.list.push(value)
    }
}

impl<T: Copy> Items<T> {
    /// A list with the elements of a slice.
    pub fn from_slice(alloc: Global, elements: &[T]) -> Result<Items<T>, AllocError>
        ensures { IfOk result (λ list. list ≡ elements.now) }
    {
        let list = Vec::from_slice(alloc, elements)?;
        Ok(Items { list })
    }
}

impl<T: Drop> Items<T> {
    /// A list with a copy of each element of a slice, in order, for elements that aren't `Copy`.
    /// `copy` gives a copy of one element, or fails for want of memory.
    pub fn from_copies<F>(alloc: Global, elements: &[T], copy: F) -> Result<Items<T>, AllocError>
    where
        F: Fn(&T) -> Result<T, AllocError>,
        requires callable { F.IsAlwaysCallable copy }
        requires copies { (x made : _) → F.post copy x made → IfOk made (λ twin. twin ≡ x.now) }
        ensures { IfOk result (λ list. list ≡ elements.now) }
    {
        let mut list = Items::from_vec(Vec::with_capacity(alloc, elements.len())?);
        for element in elements {
            list.push(copy(element)?)?;
        }
        Ok(list)
    }
}
