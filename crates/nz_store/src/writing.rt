//! Commands, written as bytes.

ghost use Rattle.std.specs.Prelude.{◌≡◌, ◌+◌, ◌≤◌, ◌++◌, length, vec_len, vec_capacity, OnOk, OnErr};
ghost use Rattle.std.specs.Option.{option_map};
ghost use Rattle.nz_store.specs.Grammar.{IsKey, IsValue, IsOptionalValue, IsValidCommand, key_spelling, value_spelling, choice_spelling, spelling};
ghost use Rattle.nz_store.specs.Reading.{command_owned};

use crate::command::CommandRef;
use crate::error::NoMemory;

/// Puts the bytes last. There is room for them.
fn put(out: &mut Vec<u8>, bytes: &[u8])
    requires { vec_len out.old + length bytes.now ≤ vec_capacity out.old }
    ensures items { out.new.items ≡ out.old.items ++ bytes.now }
    ensures len { vec_len out.new ≡ vec_len out.old + length bytes.now }
    ensures capacity { vec_capacity out.old ≤ vec_capacity out.new }
{
    match out.extend_from_slice(bytes) {
        Ok(()) => {}
        Err(_) => unreachable!(),
    }
}

fn put_key(out: &mut Vec<u8>, key: &[u8])
    requires key { IsKey key.now }
    requires room { vec_len out.old + length (key_spelling key.now) ≤ vec_capacity out.old }
    ensures items { out.new.items ≡ out.old.items ++ key_spelling key.now }
    ensures len { vec_len out.new ≡ vec_len out.old + length (key_spelling key.now) }
    ensures capacity { vec_capacity out.old ≤ vec_capacity out.new }
{
    out.push_reserved(key.len() as u8);
    put(out, key);
}

fn put_value(out: &mut Vec<u8>, value: &[u8])
    requires value { IsValue value.now }
    requires room { vec_len out.old + length (value_spelling value.now) ≤ vec_capacity out.old }
    ensures items { out.new.items ≡ out.old.items ++ value_spelling value.now }
    ensures len { vec_len out.new ≡ vec_len out.old + length (value_spelling value.now) }
    ensures capacity { vec_capacity out.old ≤ vec_capacity out.new }
{
    put(out, &(value.len() as u16).to_be_bytes());
    put(out, value);
}

fn put_choice(out: &mut Vec<u8>, value: Option<&[u8]>)
    requires value { IsOptionalValue (option_map (λ v. v.now) value) }
    requires room { vec_len out.old + length (choice_spelling (option_map (λ v. v.now) value)) ≤ vec_capacity out.old }
    ensures items { out.new.items ≡ out.old.items ++ choice_spelling (option_map (λ v. v.now) value.entry) }
    ensures len { vec_len out.new ≡ vec_len out.old + length (choice_spelling (option_map (λ v. v.now) value.entry)) }
    ensures capacity { vec_capacity out.old ≤ vec_capacity out.new }
{
    match value {
        None => out.push_reserved(0),
        Some(value) => {
            out.push_reserved(1);
            put_value(out, value);
        }
    }
}

fn choice_len(value: Option<&[u8]>) -> usize
    requires { IsOptionalValue (option_map (λ v. v.now) value) }
    ensures { result ≡ length (choice_spelling (option_map (λ v. v.now) value.entry)) }
{
    match value {
        None => 1,
        Some(value) => 3 + value.len(),
    }
}

fn spelling_len(command: CommandRef<'_>) -> usize
    requires { IsValidCommand (command_owned command) }
    ensures { result ≡ length (spelling (command_owned command.entry)) }
{
    match command {
        CommandRef::Put { key, value } => 4 + key.len() + value.len(),
        CommandRef::Get { key } | CommandRef::Del { key } => 2 + key.len(),
        CommandRef::Cas { key, old, new } => 2 + key.len() + choice_len(old) + choice_len(new),
    }
}

/// Puts the one spelling of the command last. Room for it is taken at once; where there is none the
/// bytes stay as they are.
pub fn write_command(out: &mut Vec<u8>, command: CommandRef<'_>) -> Result<(), NoMemory>
    requires { IsValidCommand (command_owned command) }
    ensures ok { OnOk result (out.new.items ≡ out.old.items ++ spelling (command_owned command.entry)) }
    ensures err { OnErr result (out.new.items ≡ out.old.items) }
{
    out.reserve(spelling_len(command))?;
    match command {
        CommandRef::Put { key, value } => {
            out.push_reserved(1);
            put_key(out, key);
            put_value(out, value);
        }
        CommandRef::Get { key } => {
            out.push_reserved(2);
            put_key(out, key);
        }
        CommandRef::Del { key } => {
            out.push_reserved(3);
            put_key(out, key);
        }
        CommandRef::Cas { key, old, new } => {
            out.push_reserved(4);
            put_key(out, key);
            put_choice(out, old);
            put_choice(out, new);
        }
    }
    Ok(())
}
