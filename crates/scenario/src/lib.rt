//! Scenarios for a bench: what is done for each command, and what is answered.
#![tactic(auto)]

mod answer;
mod bench;
mod causes;
mod done;
mod rows;
mod session;
mod show;
mod trouble;

pub use answer::{Answer, BenchReply, DeskReply, Reply};
pub use bench::Bench;
pub use done::Done;
pub use rows::rows_text;
pub use trouble::Trouble;
