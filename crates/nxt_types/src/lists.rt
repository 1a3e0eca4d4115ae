// Lists that contracts see as lists.

ghost use Rattle.std.specs.Prelude.{◌≡◌, ◌↔◌, [], ◌∷◌, ◌++◌, length, take, OnOk, OnErr, IsTrue};

use crate::memory::NoMemory;
use crate::shape::TocEntry;
use std::alloc::Global;
use std::marker::Model;

/// A list that grows with an allocator of its own.
#[derive(Drop)]
pub struct ListOf<T: Drop> {
    items: Vec<T>,
}

impl<T: Drop> Model for ListOf<T> {
    ghost use Rattle.std.specs.Prelude.{List};

    ghost Value = { List T };

    ghost view = { λ a. a.items.items };
}

impl<T: Drop> ListOf<T> {
    /// The empty list. It takes no memory.
    pub fn new(alloc: Global) -> ListOf<T>
        ensures { result ≡ [] }
    {
        ListOf {
            items: Vec::new(alloc),
        }
    }

    pub fn from_vec(items: Vec<T>) -> ListOf<T>
        ensures { result ≡ items.items }
    {
        ListOf { items }
    }

    pub fn into_vec(self) -> Vec<T>
        ensures { result.items ≡ self }
    {
        let ListOf { items } = self;
        items
    }

    pub fn as_slice(&self) -> &[T]
        ensures { result.now ≡ self.now }
    {
        self.items.as_slice()
    }

    pub fn len(&self) -> usize
        ensures { result ≡ length self.now }
    {
        self.items.len()
    }

    pub fn is_empty(&self) -> bool
        ensures { IsTrue result ↔ (self.now ≡ []) }
    {
        self.items.is_empty()
    }

    /// Adds an item at the end. An `Err` changes nothing.
    pub fn push(&mut self, item: T) -> Result<(), NoMemory>
        ensures ok { OnOk result (self.new ≡ self.old ++ item ∷ []) }
        ensures err { OnErr result (self.new ≡ self.old) }
    {
        self.items.push(item)?;
        Ok(())
    }

    /// Makes room for more items, so that adding these takes no memory.
    pub fn reserve(&mut self, more: usize) -> Result<(), NoMemory>
        ensures { self.new ≡ self.old }
    {
        self.items.try_reserve(more)?;
        Ok(())
    }

    /// Keeps the first n items.
    pub fn truncate(&mut self, n: usize)
        ensures { self.new ≡ take n self.old }
    {
        self.items.truncate(n);
    }

    pub fn clear(&mut self)
        ensures { self.new ≡ [] }
    {
        self.items.clear();
    }

    /// The items with the allocator that they grow with.
    pub fn as_vec(&self) -> &Vec<T>
        ensures { result.now.items ≡ self.now }
    {
        &self.items
    }
}

impl<T: Copy> ListOf<T> {
    /// Adds items at the end. An `Err` changes nothing.
    pub fn append(&mut self, more: &[T]) -> Result<(), NoMemory>
        ensures ok { OnOk result (self.new ≡ self.old ++ more.now) }
        ensures err { OnErr result (self.new ≡ self.old) }
    {
        self.items.extend_from_slice(more)?;
        Ok(())
    }
}

/// A list of bytes.
pub type Bytes = ListOf<u8>;

/// A list of words of 16 bits.
pub type Words = ListOf<u16>;

/// A list of numbers.
pub type Nums = ListOf<i64>;

/// A list of table entries.
pub type Entries = ListOf<TocEntry>;

/// A clump record: how often the clump is lowered before it is queued, the number of its dependents, and the word at
/// which it starts (Executable File Specification, "Clump Records").
#[derive(Clone, Copy, PartialEq, Eq, Debug)]
pub struct ClumpRec {
    pub fire: u8,
    pub dependents: u8,
    pub start: u16,
}

/// A list of clump records.
pub type ClumpRecs = ListOf<ClumpRec>;
