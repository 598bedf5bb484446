//! The entries of a log.
ghost use Rattle.std.specs.Prelude.{◌≡◌, ◌+◌, ◌-◌, ◌≤◌, ◌<◌, [], ◌∷◌, ◌++◌, length, take, drop, OnOk, OnErr, IfOk, filter, slice_set, slice_index_or, vec_len, vec_capacity};
ghost use Rattle.std.specs.Option.{option_copied};
ghost use Rattle.nz_log.specs.Places.{last_entry};
ghost use Rattle.nz_log.specs.Synced.{is_displaced};

use super::PAGE;
use super::entries::is_displaced;
use nz_base::{Blob, Entry, EntryList, Key, List, NoMemory, TryCopy};
use std::alloc::Global;
use std::marker::Model;
use std::mem;

/// Entries in order. A clause sees the list of them.
#[derive(Debug, Drop)]
pub struct Pages {
    // Each has PAGE entries.
    full: Vec<Vec<Entry>>,
    // It has fewer.
    last: Vec<Entry>,
    len: usize,
}

impl Model for Pages {
    ghost use Rattle.std.specs.Prelude.{List, ◌++◌};
    ghost use Rattle.std.specs.List.{flat_map};
    ghost use Rattle.nz_base.specs.declared.key.Entry.{Entry as EntryModel};
    ghost use Rattle.nz_log.specs.Paging.{ArePages};

    ghost Value = { List EntryModel };

    ghost view = { λ p. flat_map (λ page. page.items) p.full.items ++ p.last.items };

    ghost invariant = { λ p. ArePages (λ page. page.items) p.full.items p.last.items p.len };
}

impl Pages {
    pub fn new(alloc: Global) -> Pages
        ensures { result ≡ [] }
    {
        Pages {
            full: Vec::new(alloc),
            last: Vec::new(alloc),
            len: 0,
        }
    }

    /// The entries of the list, which are not copied.
    pub fn from_list(alloc: Global, list: EntryList) -> Result<Pages, NoMemory>
        ensures { IfOk result (λ pages. pages ≡ list) }
    {
        let mut pages = Pages::new(alloc);
        for entry in list.into_vec() {
            pages.push(entry)?;
        }
        Ok(pages)
    }

    pub fn alloc(&self) -> Global {
        *self.last.allocator()
    }

    pub fn len(&self) -> usize
        ensures { result ≡ length self.now }
    {
        self.len
    }

    pub fn get(&self, place: usize) -> &Entry
        requires { place < length self.now }
        ensures { result.now ≡ slice_index_or self.now place result.now }
    {
        let page = place / PAGE;
        if page < self.full.len() {
            &self.full[page][place % PAGE]
        } else {
            &self.last[place % PAGE]
        }
    }

    pub fn last(&self) -> Option<&Entry>
        ensures { option_copied result ≡ last_entry self.now }
    {
        match self.len().checked_sub(1) {
            Some(place) => Some(self.get(place)),
            None => None,
        }
    }

    /// Puts the entry last.
    pub fn push(&mut self, entry: Entry) -> Result<(), NoMemory>
        ensures ok { OnOk result (self.new ≡ self.old ++ entry ∷ []) }
        ensures err { OnErr result (self.new ≡ self.old) }
    {
        let alloc = self.alloc();
        let len = self.len.checked_add(1).ok_or(NoMemory)?;
        // A page has its room from its first entry on, so no entry moves as it grows.
        self.last.reserve(PAGE - self.last.len())?;
        self.full.reserve(1)?;
        self.last.push_reserved(entry);
        self.len = len;
        if self.last.len() == PAGE {
            let page = mem::replace(&mut self.last, Vec::new(alloc));
            self.full.push_reserved(page);
        }
        Ok(())
    }

    /// Puts the entry in the place of another, which it answers.
    pub fn replace(&mut self, place: usize, entry: Entry) -> Entry
        requires { place < length self.old }
        ensures value { result ≡ slice_index_or self.old place result }
        ensures rest { self.new ≡ slice_set self.old place entry }
    {
        let page = place / PAGE;
        if page < self.full.len() {
            mem::replace(&mut self.full[page][place % PAGE], entry)
        } else {
            mem::replace(&mut self.last[place % PAGE], entry)
        }
    }

    /// Keeps this many entries, from the first on.
    pub fn truncate(&mut self, len: usize)
        ensures { self.new ≡ take len self.old }
    {
        while self.len() > len {
            self.pop();
        }
    }

    // Takes the last entry out, if there is one.
    fn pop(&mut self)
        ensures { self.new ≡ take (length self.old - 1) self.old }
    {
        let end = self.last.len();
        if end > 0 {
            self.last.truncate(end - 1);
            self.len -= 1;
        } else if let Some(mut page) = self.full.pop() {
            page.truncate(PAGE - 1);
            self.last = page;
            self.len -= 1;
        }
    }

    /// Copies of the entries. For more than 2^32 - 1 of them the answer is `NoMemory`.
    pub fn copies(&self) -> Result<EntryList, NoMemory>
        ensures { IfOk result (λ list. list ≡ self.now) }
    {
        if self.len() > u32::MAX as usize {
            return Err(NoMemory);
        }
        let mut copies = Vec::with_capacity(self.alloc(), self.len())?;
        for page in &self.full {
            put_copies(&mut copies, page)?;
        }
        put_copies(&mut copies, &self.last)?;
        Ok(List::from_vec(copies))
    }

    /// Copies of the entries from a place on.
    pub fn copies_from(&self, from: usize) -> Result<Vec<Entry>, NoMemory>
        requires { from ≤ length self.now }
        ensures { IfOk result (λ copies. copies.items ≡ drop from self.now) }
    {
        let alloc = self.alloc();
        let mut copies = Vec::with_capacity(alloc, self.len() - from)?;
        for place in from..self.len() {
            copies.push_reserved(self.get(place).copy(alloc)?);
        }
        Ok(copies)
    }

    /// Copies of the entries from a place on that lose their places to one with this key.
    pub fn displaced_by(&self, from: usize, key: Key) -> Result<EntryList, NoMemory>
        requires { from ≤ length self.now }
        ensures { IfOk result (λ list. list ≡ filter (is_displaced key) (drop from self.now)) }
    {
        let alloc = self.alloc();
        let mut list = List::new(alloc);
        for place in from..self.len() {
            let entry = self.get(place);
            if is_displaced(&key, entry) {
                list.push(entry.copy(alloc)?)?;
            }
        }
        Ok(list)
    }

    /// Puts the entry at a place. Those from there on move by one.
    pub fn insert(&mut self, place: usize, entry: Entry) -> Result<(), NoMemory>
        requires { place ≤ length self.old }
        ensures ok { OnOk result (self.new ≡ take place self.old ++ entry ∷ drop place self.old) }
        ensures err { OnErr result (self.new ≡ self.old) }
    {
        self.push(no_request(self.alloc()))?;
        let _ = self.move_on(place, entry);
        Ok(())
    }

    // Puts the entry at a place, and each from there on at the next place. It answers the last one.
    fn move_on(&mut self, place: usize, entry: Entry) -> Entry
        requires { place ≤ length self.old }
        ensures { self.new ++ result ∷ [] ≡ take place self.old ++ entry ∷ drop place self.old }
    {
        let mut hand = entry;
        for at in place..self.len() {
            hand = self.replace(at, hand);
        }
        hand
    }

    /// Moves an entry down to a place. What was there is dropped, and what is left where it was is
    /// of no request.
    pub fn move_down(&mut self, from: usize, to: usize)
        requires down { to ≤ from }
        requires within { from < length self.old }
        ensures len { length self.new ≡ length self.old }
        ensures moved { (d : _) → take (to + 1) self.new ≡ take to self.old ++ slice_index_or self.old from d ∷ [] }
        ensures above { drop (from + 1) self.new ≡ drop (from + 1) self.old }
    {
        let entry = self.replace(from, no_request(self.alloc()));
        let _ = self.replace(to, entry);
    }
}

// Puts copies of the entries, for which there is room, after those that are there.
fn put_copies(copies: &mut Vec<Entry>, entries: &[Entry]) -> Result<(), NoMemory>
    requires { vec_len copies.old + length entries.now ≤ vec_capacity copies.old }
    ensures items { OnOk result (copies.new.items ≡ copies.old.items ++ entries.now) }
    ensures capacity { vec_capacity copies.new ≡ vec_capacity copies.old }
{
    let alloc = *copies.allocator();
    for entry in entries {
        copies.push_reserved(entry.copy(alloc)?);
    }
    Ok(())
}

// Holds a place for a moment.
fn no_request(alloc: Global) -> Entry {
    let key = Key {
        deadline: 0,
        client: 0,
        num: 0,
    };
    let command = Blob::from_vec(Vec::new(alloc));
    Entry { key, command }
}
