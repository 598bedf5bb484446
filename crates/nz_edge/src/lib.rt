//! The outside of the program: where its input comes from, where its output goes, and a gate at
//! which a test can hold a worker.
#![tactic(auto)]

mod calls;
mod gate;
mod mem_sink;
mod mem_source;
mod sink;
mod source;
mod standard;

pub use calls::CallList;
pub use gate::{Gate, OpenGate};
pub use mem_sink::MemSink;
pub use mem_source::MemSource;
pub use sink::Sink;
pub use source::{Failed, Source};
pub use standard::{StdSink, StdSource};
