//! Stores that are chosen while a program runs, with a window over them or not, and with a shelf or not.
#![tactic(auto)]

mod any;
mod choice;
mod pile;

pub use choice::{AnyStore, Pile, ShelvedPile};
