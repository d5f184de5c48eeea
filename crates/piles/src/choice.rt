use shelf::Shelf;
use stores::{Bits, Card, Memory, Window};

// Both are enums with a `match` in each call. A `dyn` would be made and handed out, which the gate refuses; and with
// one `Either` for both a card would be `Left(Right(Left(card)))`, and no plainer.

/// A store of this repository that is chosen while a program runs.
#[derive(Drop)]
pub enum AnyStore {
    Memory(Memory),
    Card(Card),
    Bits(Bits),
}

/// Such a store, or a window over it.
#[derive(Drop)]
pub enum Pile {
    Plain(AnyStore),
    Windowed(Window<AnyStore>),
}

/// A shelf over such a store.
pub type ShelvedPile = Shelf<Pile>;
