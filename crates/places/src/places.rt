use arrayvec::ArrayVec;
use shelves::Entry;

mod list;

/// Tiles by last use, front first, in 64 places.
#[derive(Drop)]
pub struct Places {
    entries: ArrayVec<Entry, 64>,
}
