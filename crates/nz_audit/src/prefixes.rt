//! The accepted prefixes: read off one log, or found by a search.

pub mod first_view;
pub mod leaders;
pub mod replays;
pub mod search;
