ghost use Rattle.shelves.specs.Shelves.{Kept};
ghost use Rattle.shelves.proofs.Props.{kept_prop};
ghost use Rattle.places.specs.Places.{list_of};

use places::Places;
use stores::TileStore;

mod bytes;
mod calls;
mod tiles;
mod touch;

/// 64 places for tiles over a store, by last use.
///
/// Every accepted read or write is a touch: a tile that is on the shelf moves to the front, any other
/// is read below, which is a fetch, and put in front. If 64 were there, the last one leaves and, if it
/// was changed, is written below.
#[derive(Drop)]
pub struct Shelf<S: TileStore> {
    below: S,
    places: Places,
    fetches: u64,
    pub ghost kept: { Kept (S.meaning below) (list_of places) } by { kept_prop (S.meaning below) (list_of places) },
}
