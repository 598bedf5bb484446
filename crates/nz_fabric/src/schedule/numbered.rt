//! Lists of items, each under a number.

ghost use Rattle.std.specs.Prelude.{◌≡◌, ◌++◌, [], ℕ, OnOk};
ghost use Rattle.nz_fabric.specs.schedule.Numbered.{items_under, one_under};

use indexmap::IndexMap;
use nz_base::{List, NoMemory};
use std::alloc::Global;
use std::marker::Model;

/// A look at the items under a number costs the same however many numbers there are. One without items takes no memory.
#[derive(Drop)]
pub struct Numbered<T> {
    lists: IndexMap<u64, List<T>>,
}

impl<T> Model for Numbered<T> {
    ghost use Rattle.std.specs.Prelude.{ℕ, List as Listed};
    ghost use Rattle.std.specs.Coded.{coded_list, coded×, coded_ℕ};

    ghost Value = { Listed (ℕ × Listed T) };

    ghost coded = { coded_list (coded× coded_ℕ (coded_list T.code)) };

    ghost view = { λ n. n.lists.entries };
}

impl<T: Drop> Numbered<T> {
    pub fn new(alloc: Global) -> Numbered<T>
        ensures { result ≡ [] }
    {
        Numbered {
            lists: IndexMap::new(alloc),
        }
    }

    /// The items under a number.
    pub fn under(&self, number: u64) -> &[T]
        ensures { result.now ≡ items_under self.now number }
    {
        if self.lists.is_empty() {
            return &[];
        }
        match self.lists.get(&number) {
            Some(list) => list.as_slice(),
            None => &[],
        }
    }

    /// Puts an item last under a number.
    pub fn push(&mut self, alloc: Global, number: u64, item: T) -> Result<(), NoMemory>
        ensures { OnOk result ((n : ℕ) → items_under self.new n ≡ items_under self.old n ++ one_under n number item) }
    {
        if let Some(list) = self.lists.get_mut(&number) {
            return list.push(item);
        }
        let mut list = List::new(alloc);
        list.push(item)?;
        self.lists.insert(number, list)?;
        Ok(())
    }
}
