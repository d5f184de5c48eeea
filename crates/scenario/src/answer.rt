use super::done::Done;
use super::trouble::Trouble;
use desk::{DeskDone, DeskTrouble};

/// What a command for plates was answered.
pub type Reply = Result<Done, Trouble>;

/// What a command for stores was answered.
pub type DeskReply = Result<DeskDone, DeskTrouble>;

/// What a bench replies to a line.
#[derive(Clone, Copy)]
pub enum BenchReply {
    Plates(Reply),
    Stores(DeskReply),
}

/// A reply, and the line of the scenario that it answers.
#[derive(Clone, Copy)]
pub struct Answer<R> {
    pub line: u64,
    pub reply: R,
}
