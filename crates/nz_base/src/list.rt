//! Lists that take memory only where they say so.

ghost use Rattle.std.specs.Prelude.{◌≡◌, ◌+◌, ◌<◌, ◌^◌, ◌∷◌, ◌++◌, [], length, Some, IfOk, OnOk, OnErr, slice_get, ◌↔◌, IsTrue};
ghost use Rattle.std.specs.Cmp.Lexicographic.{pointwise, lists_per, lists_equiv};

use super::memory::{NoMemory, TryCopy};
use std::alloc::Global;
use std::marker::Model;

/// At most 2^32 - 1 items in order. A clause sees the list of them.
#[derive(Debug, Drop)]
pub struct List<T> {
    items: Vec<T>,
}

impl<T> Model for List<T> {
    ghost use Rattle.std.specs.Prelude.{List as Listed, length, ◌<◌, ◌^◌};
    ghost use Rattle.std.specs.Coded.{coded_list};

    ghost Value = { Listed T };

    ghost coded = { coded_list T.code };

    ghost view = { λ l. l.items.items };

    ghost invariant = { λ l. length l.items.items < 2 ^ 32 };
}

impl<T> List<T> {
    pub fn new(alloc: Global) -> List<T>
        ensures { result ≡ [] }
    {
        List {
            items: Vec::new(alloc),
        }
    }

    /// An empty list with room for this many items.
    pub fn with_capacity(alloc: Global, count: u32) -> Result<List<T>, NoMemory>
        ensures { IfOk result (λ list. list ≡ []) }
    {
        Ok(List {
            items: Vec::with_capacity(alloc, count as usize)?,
        })
    }

    pub fn len(&self) -> u32
        ensures { result ≡ length self.now }
    {
        self.items.len() as u32
    }

    pub fn is_empty(&self) -> bool
        ensures { IsTrue result ↔ (self.now ≡ []) }
    {
        self.items.is_empty()
    }

    /// Puts the item last. At 2^32 - 1 items the answer is `NoMemory`.
    pub fn push(&mut self, item: T) -> Result<(), NoMemory>
    where
        T: Drop,
        ensures ok { OnOk result (self.new ≡ self.old ++ item ∷ []) }
        ensures err { OnErr result (self.new ≡ self.old) }
    {
        if self.len() == u32::MAX {
            return Err(NoMemory);
        }
        self.items.push(item)?;
        Ok(())
    }

    pub fn get(&self, place: u32) -> &T
        requires { place < length self.now }
        ensures { slice_get self.now place ≡ Some result.now }
    {
        &self.items[place as usize]
    }

    pub fn as_slice(&self) -> &[T]
        ensures { result.now ≡ self.now }
    {
        &self.items
    }

    /// The list of these items, which are not copied.
    pub fn from_vec(items: Vec<T>) -> List<T>
        requires { length items.items < 2 ^ 32 }
        ensures { result ≡ items.items }
    {
        List { items }
    }

    /// The items as a vector, which is not copied.
    pub fn into_vec(self) -> Vec<T>
        ensures { result.items ≡ self }
    {
        self.items
    }
}

impl<T: TryCopy + Drop> List<T> {
    /// Copies of the items. For more than 2^32 - 1 of them the answer is `NoMemory`.
    pub fn from_slice(alloc: Global, items: &[T]) -> Result<List<T>, NoMemory>
        ensures { IfOk result (λ list. list ≡ items.now) }
    {
        if items.len() > u32::MAX as usize {
            return Err(NoMemory);
        }
        let mut copies = Vec::with_capacity(alloc, items.len())?;
        for item in items {
            copies.push_reserved(item.copy(alloc)?);
        }
        Ok(List::from_vec(copies))
    }
}

impl<T: TryCopy + Drop> TryCopy for List<T> {
    fn copy(&self, alloc: Global) -> Result<List<T>, NoMemory> {
        List::from_slice(alloc, self.as_slice())
    }
}

impl<T: PartialEq> PartialEq for List<T> {
    ghost eq = { pointwise T.eq };

    ghost laws = { lists_per T.laws };

    fn eq(&self, other: &List<T>) -> bool {
        self.as_slice() == other.as_slice()
    }
}

impl<T: Eq> Eq for List<T> {
    ghost laws = { lists_equiv T.Eq.laws };
}
