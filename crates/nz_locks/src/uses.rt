//! What a command does with a lock.
ghost use Rattle.std.specs.Prelude.{◌≡◌, ◌++◌, codes, Some, None};
ghost use Rattle.std.specs.Option.{option_map, option_eq};
ghost use Rattle.std.specs.Str.{bytes_eq};
ghost use Rattle.nz_store.specs.Reading.{command_owned};
ghost use Rattle.nz_locks.specs.Uses as uses;
ghost use Rattle.nz_locks.specs.Uses.{holder_value, swap_use, command_use, use_lent};

use itoa::Buffer;
use nz_store::{CommandRef, command_in};

/// What the key of a lock begins with.
const PREFIX: &[u8] = b"lock.";

/// What a command does with a lock, whose name is lent.
#[derive(Clone, Copy, Debug)]
pub enum UseRef<'a> {
    /// It takes the lock.
    Acquire(&'a [u8]),
    /// It gives the lock back.
    Release(&'a [u8]),
    /// It does neither, and might change a lock.
    Foul,
    Other,
}

/// Whether this is the value of a lock that the client holds.
fn is_holder(client: u32, value: Option<&[u8]>) -> bool
    ensures { result ≡ option_eq bytes_eq (option_map (λ v. v.now) value.entry) (Some (holder_value client)) }
{
    match value {
        Some([b'c', number @ ..]) => number == Buffer::new().format(client).as_bytes(),
        _ => false,
    }
}

/// What a swap of the value of the lock with this name is.
fn swap_of<'a>(client: u32, name: &'a [u8], old: Option<&[u8]>, new: Option<&[u8]>) -> UseRef<'a>
    ensures { use_lent result ≡ swap_use client name.now (option_map (λ v. v.now) old.entry) (option_map (λ v. v.now) new.entry) }
{
    if name.is_empty() {
        UseRef::Foul
    } else if old.is_none() && is_holder(client, new) {
        UseRef::Acquire(name)
    } else if is_holder(client, old) && new.is_none() {
        UseRef::Release(name)
    } else {
        UseRef::Foul
    }
}

/// What a command that may only be of an ordinary key is.
fn use_of_change<'a>(key: &[u8]) -> UseRef<'a>
    ensures { use_lent result ≡ uses.change_use key.now }
{
    if key.starts_with(PREFIX) {
        UseRef::Foul
    } else {
        UseRef::Other
    }
}

fn use_of_command<'a>(client: u32, command: CommandRef<'a>) -> UseRef<'a>
    ensures { use_lent result ≡ command_use client (command_owned command.entry) }
{
    match command {
        CommandRef::Get { .. } => UseRef::Other,
        CommandRef::Put { key, .. } | CommandRef::Del { key } => use_of_change(key),
        CommandRef::Cas { key, old, new } => match key.strip_prefix(PREFIX) {
            Some(name) => swap_of(client, name, old, new),
            None => UseRef::Other,
        },
    }
}

/// What the client's command does with a lock.
pub fn use_of(client: u32, bytes: &[u8]) -> UseRef<'_>
    ensures { use_lent result ≡ uses.use_of client bytes.now }
{
    match command_in(bytes) {
        Some(command) => use_of_command(client, command),
        None => UseRef::Other,
    }
}

/// Whether the client's command is neither an acquire nor a release, and might change a lock.
pub fn is_foul(client: u32, bytes: &[u8]) -> bool
    ensures { result ≡ uses.is_foul client bytes.now }
{
    match use_of(client, bytes) {
        UseRef::Foul => true,
        UseRef::Acquire(_) | UseRef::Release(_) | UseRef::Other => false,
    }
}
