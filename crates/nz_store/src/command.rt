//! Commands and answers.

ghost use Rattle.std.specs.Prelude.{◌≡◌, IsTrue, ◌↔◌, IfOk};
ghost use Rattle.std.specs.Option.{option_map};
ghost use Rattle.nz_store.specs.Reading.{is_choice_text, has_spelling};

use crate::blob::Blob;
use crate::error::NoMemory;
use crate::reading::{is_key, is_value};
use std::alloc::Global;

/// What a client may ask of the store.
#[derive(Debug, Drop)]
pub enum Command {
    /// Sets the key.
    Put {
        key: Blob,
        value: Blob,
    },
    /// Reads the key.
    Get {
        key: Blob,
    },
    /// Removes the key.
    Del {
        key: Blob,
    },
    /// Where the key has `old`, gives it `new`. `None` is no value: the key is absent.
    Cas {
        key: Blob,
        old: Option<Blob>,
        new: Option<Blob>,
    },
}

/// A command whose key and values are some bytes of somebody else's.
#[derive(Clone, Copy, Debug)]
pub enum CommandRef<'a> {
    Put {
        key: &'a [u8],
        value: &'a [u8],
    },
    Get {
        key: &'a [u8],
    },
    Del {
        key: &'a [u8],
    },
    Cas {
        key: &'a [u8],
        old: Option<&'a [u8]>,
        new: Option<&'a [u8]>,
    },
}

/// What the store answers to a command.
#[derive(Debug, Drop)]
pub enum Answer {
    Done,
    Value(Blob),
    Absent,
    Differs,
}

impl Answer {
    pub fn copy(&self, alloc: Global) -> Result<Answer, NoMemory>
        ensures { IfOk result (λ answer. answer ≡ self.now) }
    {
        match self {
            Answer::Done => Ok(Answer::Done),
            Answer::Value(value) => Ok(Answer::Value(value.copy(alloc)?)),
            Answer::Absent => Ok(Answer::Absent),
            Answer::Differs => Ok(Answer::Differs),
        }
    }
}

impl Command {
    ghost use Rattle.nz_store.specs.Grammar.{IsValidCommand};

    /// Whether the command has a spelling: a key of 1 to 32 bytes and values of 1 to 256 bytes,
    /// each byte from `0x21` to `0x7e`, and no value `-`.
    pub fn is_valid(&self) -> bool
        ensures { IsTrue result ↔ IsValidCommand self.now }
    {
        is_spelled(self)
    }
}

/// The value, where there is one, lent.
fn lend_choice(value: &Option<Blob>) -> Option<&[u8]>
    ensures { option_map (λ v. v.now) result ≡ value.now }
{
    match value {
        None => None,
        Some(value) => Some(value.as_slice()),
    }
}

impl Command {
    ghost use Rattle.nz_store.specs.Reading.{command_owned};

    /// The same command, whose key and values stay this one's.
    pub fn lend(&self) -> CommandRef<'_>
        ensures { command_owned result ≡ self.now }
    {
        match self {
            Command::Put { key, value } => CommandRef::Put {
                key: key.as_slice(),
                value: value.as_slice(),
            },
            Command::Get { key } => CommandRef::Get {
                key: key.as_slice(),
            },
            Command::Del { key } => CommandRef::Del {
                key: key.as_slice(),
            },
            Command::Cas { key, old, new } => CommandRef::Cas {
                key: key.as_slice(),
                old: lend_choice(old),
                new: lend_choice(new),
            },
        }
    }
}

fn is_spelled(command: &Command) -> bool
    ensures { result ≡ has_spelling command.now }
{
    match command {
        Command::Put { key, value } => is_key(key.as_slice()) && is_value(value.as_slice()),
        Command::Get { key } => is_key(key.as_slice()),
        Command::Del { key } => is_key(key.as_slice()),
        Command::Cas { key, old, new } => {
            is_key(key.as_slice()) && is_choice(old) && is_choice(new)
        }
    }
}

fn is_choice(value: &Option<Blob>) -> bool
    ensures { result ≡ is_choice_text value.now }
{
    match value {
        None => true,
        Some(value) => is_value(value.as_slice()),
    }
}
