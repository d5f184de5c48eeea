//! Windows with walls and rings, and the plain sweep over memory of its own.
#![tactic(auto)]

mod field;
mod plate;

pub use plate::Plate;
