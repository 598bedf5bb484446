//! Commands, read from bytes.

ghost use Rattle.std.specs.Prelude.{◌≡◌, ◌↔◌, IfOk, IfSome, IsNone, Some};
ghost use Rattle.std.specs.List.{list_all};
ghost use Rattle.std.specs.Option.{option_map};
ghost use Rattle.nz_store.specs.Grammar.{is_graphic, IsValidCommand, Spells};
ghost use Rattle.nz_store.specs.Reading as reading;
ghost use Rattle.nz_store.specs.Reading.{is_key_text, is_value_text, text_at, command_of, command_owned, all_of};
ghost use Rattle.nz_store.specs.declared.command.Command.{Command as CommandModel};

use crate::blob::Blob;
use crate::command::{Command, CommandRef};
use crate::error::NoMemory;
use std::alloc::Global;

#[tactic(auto, using(std::proofs::lemmas::List::Folds::list_all_more))]
fn are_graphic(bytes: &[u8]) -> bool
    ensures { result ≡ list_all is_graphic bytes.now }
{
    // Without an early end the bytes are looked at many at a time.
    let mut all = true;
    for byte in bytes {
        all &= byte.is_ascii_graphic();
    }
    all
}

fn is_text(bytes: &[u8], most: usize) -> bool
    ensures { result ≡ reading.is_text most bytes.now }
{
    let len = bytes.len();
    1 <= len && len <= most && are_graphic(bytes)
}

/// Whether the bytes are a key: 1 to 32 bytes, each from `0x21` to `0x7e`.
pub fn is_key(bytes: &[u8]) -> bool
    ensures { result ≡ is_key_text bytes.now }
{
    is_text(bytes, 32)
}

/// Whether the bytes are a value: 1 to 256 bytes, each from `0x21` to `0x7e`, and not the one byte `-`.
pub fn is_value(bytes: &[u8]) -> bool
    ensures { result ≡ is_value_text bytes.now }
{
    is_text(bytes, 256) && bytes != b"-".as_slice()
}

#[tactic(auto, unfolding(crate::specs::Reading::key_at))]
fn key_at(bytes: &[u8]) -> Option<(&[u8], &[u8])>
    ensures { option_map (λ x. (x.0.now, x.1.now)) result ≡ reading.key_at bytes.now }
{
    let [len, rest @ ..] = bytes else {
        return None;
    };
    let len = *len as usize;
    if rest.len() < len {
        return None;
    }
    let (key, rest) = rest.split_at(len);
    if is_key(key) { Some((key, rest)) } else { None }
}

#[tactic(auto, unfolding(crate::specs::Reading::value_at))]
fn value_at(bytes: &[u8]) -> Option<(&[u8], &[u8])>
    ensures { option_map (λ x. (x.0.now, x.1.now)) result ≡ reading.value_at bytes.now }
{
    let [high, low, rest @ ..] = bytes else {
        return None;
    };
    let len = u16::from_be_bytes([*high, *low]) as usize;
    if rest.len() < len {
        return None;
    }
    let (value, rest) = rest.split_at(len);
    if is_value(value) {
        Some((value, rest))
    } else {
        None
    }
}

#[tactic(auto, unfolding(crate::specs::Reading::choice_at))]
fn choice_at(bytes: &[u8]) -> Option<(Option<&[u8]>, &[u8])>
    ensures { option_map (λ x. (option_map (λ v. v.now) x.0, x.1.now)) result ≡ reading.choice_at bytes.now }
{
    match bytes {
        [0, rest @ ..] => Some((None, rest)),
        [1, rest @ ..] => {
            let (value, rest) = value_at(rest)?;
            Some((Some(value), rest))
        }
        _ => None,
    }
}

#[tactic(auto, unfolding(crate::specs::Reading::command_body_at))]
fn put_in<'a>(key: &'a [u8], bytes: &'a [u8]) -> Option<CommandRef<'a>>
    ensures { option_map command_owned result ≡ all_of (reading.command_body_at 1 key.now bytes.now) }
{
    let (value, rest) = value_at(bytes)?;
    if !rest.is_empty() {
        return None;
    }
    Some(CommandRef::Put { key, value })
}

#[tactic(auto, unfolding(crate::specs::Reading::command_body_at))]
fn cas_in<'a>(key: &'a [u8], bytes: &'a [u8]) -> Option<CommandRef<'a>>
    ensures { option_map command_owned result ≡ all_of (reading.command_body_at 4 key.now bytes.now) }
{
    let (old, rest) = choice_at(bytes)?;
    let (new, rest) = choice_at(rest)?;
    if !rest.is_empty() {
        return None;
    }
    Some(CommandRef::Cas { key, old, new })
}

#[tactic(auto, unfolding(crate::specs::Reading::command_body_at))]
fn body_in<'a>(kind: u8, key: &'a [u8], bytes: &'a [u8]) -> Option<CommandRef<'a>>
    ensures { option_map command_owned result ≡ all_of (reading.command_body_at kind key.now bytes.now) }
{
    match kind {
        1 => put_in(key, bytes),
        2 if bytes.is_empty() => Some(CommandRef::Get { key }),
        3 if bytes.is_empty() => Some(CommandRef::Del { key }),
        4 => cas_in(key, bytes),
        _ => None,
    }
}

#[tactic(auto, unfolding(crate::specs::Reading::command_at, crate::specs::Reading::command_of))]
fn lent(bytes: &[u8]) -> Option<CommandRef<'_>>
    ensures { option_map command_owned result ≡ command_of bytes.now }
{
    let [kind, rest @ ..] = bytes else {
        return None;
    };
    let (key, rest) = key_at(rest)?;
    body_in(*kind, key, rest)
}

/// The command that the bytes spell, all of them, in place: None where they spell none.
pub fn command_in(bytes: &[u8]) -> Option<CommandRef<'_>>
    ensures found { option_map command_owned result ≡ command_of bytes.now }
    ensures valid { IfSome result (λ c. IsValidCommand (command_owned c)) }
{
    lent(bytes)
}

/// The value as a blob, where there is one.
fn kept(alloc: Global, value: Option<&[u8]>) -> Result<Option<Blob>, NoMemory>
    ensures { IfOk result (λ blob. blob ≡ option_map (λ v. v.now) value.entry) }
{
    match value {
        None => Ok(None),
        Some(bytes) => Ok(Some(Blob::from_slice(alloc, bytes)?)),
    }
}

impl CommandRef<'_> {
    /// The same command, with a key and values of its own.
    pub fn copy(self, alloc: Global) -> Result<Command, NoMemory>
        ensures { IfOk result (λ command. command ≡ command_owned self.entry) }
    {
        match self {
            CommandRef::Put { key, value } => {
                let key = Blob::from_slice(alloc, key)?;
                let value = Blob::from_slice(alloc, value)?;
                Ok(Command::Put { key, value })
            }
            CommandRef::Get { key } => {
                let key = Blob::from_slice(alloc, key)?;
                Ok(Command::Get { key })
            }
            CommandRef::Del { key } => {
                let key = Blob::from_slice(alloc, key)?;
                Ok(Command::Del { key })
            }
            CommandRef::Cas { key, old, new } => {
                let key = Blob::from_slice(alloc, key)?;
                let old = kept(alloc, old)?;
                let new = kept(alloc, new)?;
                Ok(Command::Cas { key, old, new })
            }
        }
    }
}

fn command_if_any(alloc: Global, bytes: &[u8]) -> Result<Option<Command>, NoMemory>
    ensures { IfOk result (λ found. found ≡ command_of bytes.now) }
{
    match lent(bytes) {
        None => Ok(None),
        Some(command) => Ok(Some(command.copy(alloc)?)),
    }
}

/// The command that the bytes spell, all of them: None where they spell none.
pub fn read_command(alloc: Global, bytes: &[u8]) -> Result<Option<Command>, NoMemory>
    ensures found { IfOk result (λ found. found ≡ command_of bytes.now) }
    ensures some { IfOk result (λ found. (c : CommandModel) → (found ≡ Some c) ↔ Spells c bytes.now) }
    ensures none { IfOk result (λ found. IsNone found ↔ ((c : CommandModel) → ¬ Spells c bytes.now)) }
{
    command_if_any(alloc, bytes)
}
