//! The scenario language: what a text says, line by line, and the one text of each scenario.
//!
//! A *line* has a sort, its *verb*, which its first word gives. The *form* of a word is what it may be. The
//! *shape* of a line is its first word, where it may come, and the forms of its other words. A *draft* is
//! what has been read so far, and its *room* how many bytes the text may still have.
#![tactic(auto)]

mod checks;
mod command_len;
mod commands;
mod draft;
mod faults;
mod generating;
mod group;
mod laws;
mod line;
mod line_forms;
mod message;
mod pieces;
mod printing;
mod reading;
mod sizes;
mod validity;
mod word;

pub use commands::command_first;
pub use faults::{Kind, ScriptFault};
pub use generating::generate;
pub use laws::{
    texts_are_read_back, what_is_drawn_can_be_read, what_is_drawn_can_be_run,
    what_is_read_can_be_run,
};
pub use message::name_of;
pub use pieces::{cut_at, number_of};
pub use printing::{print, put, put_actor, put_command, put_number};
pub use reading::read;
pub use validity::ValidScenario;
