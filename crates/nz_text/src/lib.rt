//! The text of a run, its trace and its summary; and what a text says.
#![tactic(auto)]

mod draft;
mod fault;
mod laws;
mod line;
mod lines;
mod printed;
mod reading;
mod summaries;
mod texts;
mod traces;
mod unanswered;

pub use fault::TextFault;
pub use laws::texts_are_read_back;
pub use lines::{put_answer, put_event, put_found, put_path};
pub use printed::Printed;
pub use reading::read_text;
pub use summaries::summary;
pub use texts::text;
pub use traces::{put_what, trace};
