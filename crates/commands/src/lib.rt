//! The commands of a scenario, as they are read from a line.
#![tactic(auto)]

mod command;
mod number;
mod read;
mod words;

pub use command::{Command, StoreCommand};
pub use number::read_number;
pub use read::read_command;
pub use words::split_words;
