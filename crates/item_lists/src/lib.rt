//! A list of items in the order in which they were pushed, which keeps the allocator that it was made with. Most lists
//! of the project's public calls are these under names of their own, as `DayList` is.
//!
//! A contract sees an `Items<T>` as the list of its items, each as a contract sees it.
#![tactic(auto)]

use std::alloc::{AllocError, Global};
use std::marker::Model;

/// Items in the order in which they were pushed.
pub struct Items<T> {
    items: Vec<T>,
}

// One call at each exit of who lets it go.
impl<T: Drop> Drop for Items<T> {
    fn drop(self) {
        let Items { items: _ } = self;
    }
}

impl<T> Model for Items<T> {
    ghost use Rattle.std.specs.Prelude.{List};

    ghost Value = { List T };

    ghost view = { λ l. l.items.items };
}

impl<T> Items<T> {
    ghost use Rattle.std.specs.Prelude.{◌≡◌, [], ◌<◌, length, slice_get, Some};

    /// The empty list, which takes no memory.
    pub fn new(alloc: Global) -> Items<T>
        ensures { result ≡ [] }
    {
        Items {
            items: Vec::new(alloc),
        }
    }

    /// How many items there are.
    pub fn len(&self) -> usize
        ensures { result ≡ length self.now }
    {
        self.items.len()
    }

    /// The item at a place, counted from 0.
    pub fn get(&self, at: usize) -> &T
        requires { at < length self.now }
        ensures { slice_get self.now at ≡ Some result.now }
    {
        &self.items[at]
    }

    /// The items as a slice.
    pub fn items(&self) -> &[T]
        ensures { result.now ≡ self.now }
    {
        &self.items
    }
}

impl<T: Drop> Items<T> {
    ghost use Rattle.std.specs.Prelude.{◌≡◌, ◌<◌, ◌++◌, ◌∷◌, [], length, take, slice_set, OnOk, OnErr};

    /// Appends an item, or leaves the list as it was where memory is wanting.
    pub fn push(&mut self, item: T) -> Result<(), AllocError>
        ensures ok { OnOk result (self.new ≡ self.old ++ item ∷ []) }
        ensures err { OnErr result (self.new ≡ self.old) }
    {
        self.items.push(item)?;
        Ok(())
    }

    /// Puts an item in the place of another, counted from 0. The other items stay, and no memory is taken.
    pub fn set(&mut self, at: usize, item: T)
        requires { at < length self.old }
        ensures { self.new ≡ slice_set self.old at item }
    {
        self.items[at] = item;
    }

    /// Keeps the first items, as many as are given, and all where there are no more.
    pub fn truncate(&mut self, len: usize)
        ensures { self.new ≡ take len self.old }
    {
        self.items.truncate(len);
    }
}

impl<T: Copy> Items<T> {
    ghost use Rattle.std.specs.Prelude.{◌≡◌, IfOk};

    /// The same items in memory of their own, which is taken at once. It fails for want of memory alone.
    pub fn copy(&self, alloc: Global) -> Result<Items<T>, AllocError>
        ensures { IfOk result (λ copy. copy ≡ self.now) }
    {
        Ok(Items {
            items: Vec::from_slice(alloc, &self.items)?,
        })
    }
}
