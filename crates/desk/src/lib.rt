//! Stores on a bench: what is done for each command, and what is answered.
#![tactic(auto)]

mod card;
mod causes;
mod count;
mod desk;
mod done;
mod show;
mod tiles;
mod trouble;

pub use desk::{Desk, Stack};
pub use done::DeskDone;
pub use show::Tiles;
pub use trouble::DeskTrouble;
