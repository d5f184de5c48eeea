use piles::{Pile, ShelvedPile};

mod obey;

/// The store of a scenario, if there is one yet.
#[derive(Drop)]
pub struct Desk {
    pub store: Option<Stack>,
}

/// A store as it stands on a desk, with a window over it or not, and with a shelf or not.
#[derive(Drop)]
pub enum Stack {
    Bare(Pile),
    Shelved(ShelvedPile),
}
