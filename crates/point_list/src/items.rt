//! Lists as contracts see them.
ghost use Rattle.std.specs.Prelude.{◌≡◌, ◌↔◌, [], IsTrue, length};
ghost use Rattle.std.specs.Slice.Iter.{iter_rest};

use std::marker::Model;
use std::slice;

/// A list that contracts see as its elements alone. It is made from a `Vec` and gives it back
/// without taking memory.
#[derive(Debug, Drop)]
pub struct Items<T> {
    vec: Vec<T>,
}

impl<T> Model for Items<T> {
    ghost use Rattle.std.specs.Prelude.{List};

    ghost Value = { List T };

    ghost view = { λ i. i.vec.items };
}

impl<T> Items<T> {
    /// The elements of the vector.
    pub fn from_vec(vec: Vec<T>) -> Items<T>
        ensures { result ≡ vec.items }
    {
        Items { vec }
    }

    /// The vector again.
    pub fn into_vec(self) -> Vec<T>
        ensures { result.items ≡ self }
    {
        self.vec
    }

    /// The elements in their order.
    pub fn as_slice(&self) -> &[T]
        ensures { result.now ≡ self.now }
    {
        self.vec.as_slice()
    }

    /// How many elements there are.
    pub fn len(&self) -> usize
        ensures { result ≡ length self.now }
    {
        self.vec.len()
    }

    /// Whether there is no element.
    pub fn is_empty(&self) -> bool
        ensures { IsTrue result ↔ (self.now ≡ []) }
    {
        self.vec.is_empty()
    }

    /// The elements in turn.
    pub fn iter(&self) -> slice::Iter<'_, T>
        ensures { iter_rest result ≡ self.now }
    {
        self.vec.iter()
    }
}

impl<T> From<Vec<T>> for Items<T> {
    ghost from_gives = { λ vec items. items ≡ vec.items };

    fn from(vec: Vec<T>) -> Items<T> {
        Items::from_vec(vec)
    }
}

impl<'a, T> IntoIterator for &'a Items<T> {
    type Item = &'a T;

    type IntoIter = slice::Iter<'a, T>;

    ghost into_iter_gives = { λ items it. iter_rest it ≡ items.now };

    fn into_iter(self) -> Self::IntoIter {
        self.iter()
    }
}
