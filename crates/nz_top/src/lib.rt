//! The top call of the program.
#![tactic(auto)]

mod checking;
mod fixed;
mod help;
mod input;
mod keeping;
mod output;
mod playing;
mod refusal;
mod reports;
mod status;
mod top;
mod watching;
mod words;

pub use help::help_lines;
pub use keeping::{Keeping, Unkept};
pub use reports::{KeyRef, Report};
pub use status::{Outcome, Status};
pub use top::nezha;
pub use words::{Command, Origin, Play, Words};
