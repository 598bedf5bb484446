//! The commands of the key-value store, their bytes, and the store that applies them.
#![tactic(auto)]

mod blob;
mod command;
mod error;
mod laws;
mod reading;
mod store;
mod writing;

pub use blob::Blob;
pub use command::{Answer, Command, CommandRef};
pub use error::NoMemory;
pub use laws::{commands_in_turn, no_command_begins_another, one_spelling, store_is_a_map};
pub use reading::{command_in, is_key, is_value, read_command};
pub use store::Store;
pub use writing::write_command;
