ghost use Rattle.std.specs.Prelude.{◌≡◌, [], ◌∷◌, ◌++◌, ◌<◌, length, slice_get, IfOk, OnOk, OnErr, OnSome};
ghost use Rattle.std.specs.Option.{option_copied};

use smallvec::SmallVec;
use std::alloc::{AllocError, Global};
use std::default::MadeWith;
use std::marker::Model;

/// A growable list whose first `N` elements lie in the value itself, so that a list of no more takes no
/// memory. Contracts see it as the list of its elements.
///
/// Two such lists with equal elements are equal in a contract, wherever their elements lie. The value is
/// as large as `N` elements: it serves lists that are mostly short, and that are not moved about.
#[derive(Debug, Drop)]
pub struct ShortSeq<T, const N: usize> {
    items: SmallVec<T, N>,
}

impl<T, const N: usize> Model for ShortSeq<T, N> {
    ghost use Rattle.std.specs.Prelude.{List};
    ghost use Rattle.std.specs.Coded.{coded_list};

    ghost Value = { List T };

    ghost coded = { coded_list T.code };

    ghost view = { λ it. it.items.items };
}

impl<T, const N: usize> ShortSeq<T, N> {
    /// The elements, in order.
    pub fn as_slice(&self) -> &[T]
        ensures { result.now ≡ self.now }
    {
        self.items.as_slice()
    }

    /// The number of elements.
    pub fn len(&self) -> usize
        ensures { result ≡ length self.now }
    {
        self.items.len()
    }

    /// The element at a place, counted from 0.
    pub fn get(&self, at: usize) -> Option<&T>
        ensures value { option_copied result ≡ slice_get self.now at }
        ensures within { OnSome result (at < length self.now) }
    {
        self.items.as_slice().get(at)
    }
}

impl<T: MadeWith<Global> + Drop, const N: usize> ShortSeq<T, N> {
    /// The empty list. It takes no memory; `alloc` serves the pushes to come.
    pub fn new(alloc: Global) -> ShortSeq<T, N>
        ensures { result ≡ [] }
    {
        ShortSeq {
            items: SmallVec::new(alloc),
        }
    }

    /// The empty list, with room for `count` elements. It takes memory only where these are more than
    /// `N`.
    pub fn with_capacity(alloc: Global, count: usize) -> Result<ShortSeq<T, N>, AllocError>
        ensures { IfOk result (λ it. it ≡ []) }
    {
        let items = SmallVec::with_capacity(alloc, count)?;
        Ok(ShortSeq { items })
    }

    /// Puts `item` after the last element. On `Err` the list is as before.
    pub fn push(&mut self, item: T) -> Result<(), AllocError>
        ensures ok { OnOk result (self.new ≡ self.old ++ item ∷ []) }
        ensures err { OnErr result (self.new ≡ self.old) }
    {
        self.items.push(item)?;
        Ok(())
    }
}

impl<T: Copy + MadeWith<Global>, const N: usize> ShortSeq<T, N> {
    /// The list of the elements of `items`, copied.
    pub fn from_slice(alloc: Global, items: &[T]) -> Result<ShortSeq<T, N>, AllocError>
        ensures { IfOk result (λ it. it ≡ items.now) }
    {
        let items = SmallVec::from_slice(alloc, items)?;
        Ok(ShortSeq { items })
    }
}
