//! What of a scenario is due in each tick.

pub mod agenda;
pub mod calendar;
pub mod course;
pub mod deliveries;
pub mod due;
pub mod faults;
pub mod kinds;
pub mod numbered;
pub mod posting;
pub mod ticks;
