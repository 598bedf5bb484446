//! The map that commands are applied to.

ghost use Rattle.std.specs.Prelude.{◌≡◌, OnOk, IfOk, OnErr, Option, ℕ, List};
ghost use Rattle.std.specs.Option.{option_copied, option_eq, option_map};
ghost use Rattle.std.specs.Str.{bytes_eq};
ghost use Rattle.nz_store.specs.Entries.{empty, value_of, with_value, without_key, with_choice};
ghost use Rattle.nz_store.specs.Reading.{command_owned};
ghost use Rattle.nz_store.specs.Sequence as sequence;
ghost use Rattle.nz_store.specs.Sequence.{value_answer, removal_answer, refusal_answer, swap};
ghost use Rattle.nz_store.specs.Table.{entries_of, IsInOrder};

use crate::blob::Blob;
use crate::command::{Answer, Command, CommandRef};
use crate::error::NoMemory;
use crate::reading::command_in;
use std::alloc::Global;
use std::collections::BTreeMap;
use std::marker::Model;

type Table = BTreeMap<Vec<u8>, Blob>;

fn value_in<'a>(table: &'a Table, key: &[u8]) -> Option<&'a Blob>
    ensures { option_copied result ≡ value_of (entries_of table.now.entries) key.now }
{
    table.get(key)
}

fn set(alloc: Global, table: &mut Table, key: &[u8], value: &[u8]) -> Result<(), NoMemory>
    requires { IsInOrder table.old }
    ensures ok { OnOk result (entries_of table.new.entries ≡ with_value (entries_of table.old.entries) key.now value.now) }
    ensures err { OnErr result (table.new.entries ≡ table.old.entries) }
    ensures order { IsInOrder table.new }
{
    let value = Blob::from_slice(alloc, value)?;
    // A key that is there takes no memory.
    if let Some(old) = table.get_mut(key) {
        *old = value;
        return Ok(());
    }
    let key = Vec::from_slice(alloc, key)?;
    table.insert(key, value)?;
    Ok(())
}

fn remove(table: &mut Table, key: &[u8]) -> Option<Blob>
    requires { IsInOrder table.old }
    ensures table { entries_of table.new.entries ≡ without_key (entries_of table.old.entries) key.now }
    ensures value { result ≡ value_of (entries_of table.old.entries) key.now }
    ensures order { IsInOrder table.new }
{
    table.remove(key)
}

fn set_choice(
    alloc: Global,
    table: &mut Table,
    key: &[u8],
    value: Option<&[u8]>,
) -> Result<(), NoMemory>
    requires { IsInOrder table.old }
    ensures ok { OnOk result (entries_of table.new.entries ≡ with_choice (entries_of table.old.entries) key.now (option_map (λ v. v.now) value.entry)) }
    ensures err { OnErr result (table.new.entries ≡ table.old.entries) }
    ensures order { IsInOrder table.new }
{
    match value {
        Some(value) => set(alloc, table, key, value),
        None => {
            let _ = remove(table, key);
            Ok(())
        }
    }
}

/// The answer to a read.
fn read(alloc: Global, value: Option<&Blob>) -> Result<Answer, NoMemory>
    ensures { IfOk result (λ answer. answer ≡ value_answer (option_copied value.entry)) }
{
    match value {
        Some(value) => Ok(Answer::Value(value.copy(alloc)?)),
        None => Ok(Answer::Absent),
    }
}

/// The answer to a removal.
fn removal(value: Option<Blob>) -> Answer
    ensures { result ≡ removal_answer value }
{
    match value {
        Some(_) => Answer::Done,
        None => Answer::Absent,
    }
}

/// The answer to a comparison that failed.
fn refusal(value: Option<&Blob>) -> Answer
    ensures { result ≡ refusal_answer (option_copied value.entry) }
{
    match value {
        Some(_) => Answer::Differs,
        None => Answer::Absent,
    }
}

fn is_same(value: Option<&Blob>, old: Option<&[u8]>) -> bool
    ensures { result ≡ option_eq bytes_eq (option_copied value.entry) (option_map (λ v. v.now) old.entry) }
{
    match (value, old) {
        (Some(value), Some(old)) => value.as_slice() == old,
        (None, None) => true,
        _ => false,
    }
}

fn compare_and_set(
    alloc: Global,
    table: &mut Table,
    key: &[u8],
    old: Option<&[u8]>,
    new: Option<&[u8]>,
) -> Result<Answer, NoMemory>
    requires { IsInOrder table.old }
    ensures ok { IfOk result (λ answer. (entries_of table.new.entries, answer)
        ≡ swap (entries_of table.old.entries) key.now (option_map (λ v. v.now) old.entry) (option_map (λ v. v.now) new.entry)) }
    ensures err { OnErr result (table.new.entries ≡ table.old.entries) }
    ensures order { IsInOrder table.new }
{
    let value = value_in(table, key);
    if !is_same(value, old) {
        return Ok(refusal(value));
    }
    set_choice(alloc, table, key, new)?;
    Ok(Answer::Done)
}

/// A map from keys to values, which commands read and change one after the other.
#[derive(Drop)]
pub struct Store {
    alloc: Global,
    table: Table,
}

impl Model for Store {
    ghost use Rattle.nz_store.specs.Entries.{Entries};
    ghost use Rattle.nz_store.specs.Table.{entries_of, IsInOrder};

    ghost Value = { Entries };

    ghost view = { λ s. entries_of s.table.entries };

    ghost invariant = { λ s. IsInOrder s.table };
}

impl Store {
    /// The empty map.
    pub fn new(alloc: Global) -> Store
        ensures { result ≡ empty }
    {
        Store {
            alloc,
            table: BTreeMap::new(alloc),
        }
    }

    /// The value of the key, where it has one. It stays the store's.
    pub fn get(&self, key: &[u8]) -> Option<&[u8]>
        ensures { option_map (λ v. v.now) result ≡ value_of self.now key.now }
    {
        match value_in(&self.table, key) {
            Some(value) => Some(value.as_slice()),
            None => None,
        }
    }

    /// Applies the command, and answers it.
    pub fn apply(&mut self, command: &Command) -> Result<Answer, NoMemory>
        ensures store { OnOk result (self.new ≡ (sequence.apply self.old command.now).0) }
        ensures answer { IfOk result (λ answer. answer ≡ (sequence.apply self.old command.now).1) }
        ensures err { OnErr result (self.new ≡ self.old) }
    {
        self.apply_lent(command.lend())
    }

    /// The same, where the key and the values are somebody else's.
    #[tactic(auto, unfolding(crate::specs::Sequence::apply))]
    pub fn apply_lent(&mut self, command: CommandRef<'_>) -> Result<Answer, NoMemory>
        ensures store { OnOk result (self.new ≡ (sequence.apply self.old (command_owned command.entry)).0) }
        ensures answer { IfOk result (λ answer. answer ≡ (sequence.apply self.old (command_owned command.entry)).1) }
        ensures err { OnErr result (self.new ≡ self.old) }
    {
        match command {
            CommandRef::Put { key, value } => {
                set(self.alloc, &mut self.table, key, value)?;
                Ok(Answer::Done)
            }
            CommandRef::Get { key } => read(self.alloc, value_in(&self.table, key)),
            CommandRef::Del { key } => Ok(removal(remove(&mut self.table, key))),
            CommandRef::Cas { key, old, new } => {
                compare_and_set(self.alloc, &mut self.table, key, old, new)
            }
        }
    }

    /// Applies the command that the bytes spell, in place. Bytes that are no command change nothing, and
    /// are answered Absent.
    #[tactic(auto, unfolding(crate::specs::Sequence::apply_bytes))]
    pub fn apply_bytes(&mut self, bytes: &[u8]) -> Result<Answer, NoMemory>
        ensures store { OnOk result (self.new ≡ (sequence.apply_bytes self.old bytes.now).0) }
        ensures answer { IfOk result (λ answer. answer ≡ (sequence.apply_bytes self.old bytes.now).1) }
        ensures err { OnErr result (self.new ≡ self.old) }
    {
        match command_in(bytes) {
            Some(command) => self.apply_lent(command),
            None => Ok(Answer::Absent),
        }
    }
}
