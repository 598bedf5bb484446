//! Where answers come from: one reading of the records finds the source of each wanted request's parcels.

pub mod fields;
pub mod notes;
pub mod proxy;
pub mod reading;
pub mod sendings;
pub mod wanted;
