//! The answers that clients accept, and where each comes from.

pub mod answers;
pub mod listing;
pub mod tracing;
