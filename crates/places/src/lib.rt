//! The list of a shelf in memory: 64 places for tiles, by last use.
#![tactic(auto)]

mod offset;
mod places;

pub use offset::Offset;
pub use places::Places;
