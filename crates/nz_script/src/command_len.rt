//! The length of a command's line, from the bytes of the command, without copying them.
ghost use Rattle.std.specs.Prelude.{◌≡◌, ◌≤◌};
ghost use Rattle.std.specs.Option.{option_map};
ghost use Rattle.nz_base.specs.declared.limits.TheConstants.{MAX_VALUE};
ghost use Rattle.nz_store.specs.Grammar.{IsOptionalValue, IsValidCommand};
ghost use Rattle.nz_store.specs.Reading.{command_owned};
ghost use Rattle.nz_script.specs.Sizes as sizes;
ghost use Rattle.nz_script.specs.Sizes.{choice_len};

use nz_store::{CommandRef, command_in};

/// How long the choice is as a word of a line.
fn word_len(choice: Option<&[u8]>) -> u32
    requires { IsOptionalValue (option_map (λ v. v.now) choice) }
    ensures value { result ≡ choice_len (option_map (λ v. v.now) choice.entry) }
    ensures short { result ≤ MAX_VALUE }
{
    match choice {
        None => 1,
        Some(value) => value.len() as u32,
    }
}

fn command_len(command: CommandRef<'_>) -> u32
    requires { IsValidCommand (command_owned command) }
    ensures { result ≡ sizes.command_len (command_owned command.entry) }
{
    match command {
        CommandRef::Put { key, value } => 5 + key.len() as u32 + value.len() as u32,
        CommandRef::Get { key } | CommandRef::Del { key } => 4 + key.len() as u32,
        CommandRef::Cas { key, old, new } => {
            6 + key.len() as u32 + word_len(old) + word_len(new)
        }
    }
}

/// The length of the line of the command that the bytes spell, without its newline.
pub fn spelled_len(bytes: &[u8]) -> Option<u32>
    ensures { result ≡ sizes.spelled_len bytes.now }
{
    let command = command_in(bytes)?;
    Some(command_len(command))
}
