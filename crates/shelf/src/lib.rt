//! The shelf: a write-back cache of 64 tiles over any store.
#![tactic(auto)]

mod shelf;

pub use shelf::Shelf;
