//! Named locks over the store: who held which one, and that they exclude.
#![tactic(auto)]

mod clean;
mod holding;
mod laws;
mod lines;
mod uses;

pub use clean::first_foul;
pub use holding::{Tenure, TenureList, tenures};
pub use laws::{exclusive, histories_are_clean};
pub use lines::tenure_lines;
