use super::session::Session;
use desk::Desk;

mod line;

/// A bench: its plates and its stores.
#[derive(Drop)]
pub struct Bench {
    plates: Session,
    stores: Desk,
}
