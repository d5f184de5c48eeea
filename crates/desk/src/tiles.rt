ghost use Rattle.std.specs.Prelude.{replicate};
ghost use Rattle.stores.specs.Meaning.{reading, writing, read, write, store_after};
ghost use Rattle.shelves.specs.Shelves.{store_of, accessed};
ghost use Rattle.shelf.specs.Shelf.{shelved};
ghost use Rattle.piles.specs.Piles.{pile_of};
ghost use Rattle.desk.specs.Desks.{desk_said_of, read_said, write_said, below_said, CalledOn, ShelfCalled};

use super::done::DeskDone;
use super::trouble::DeskTrouble;
use piles::{Pile, ShelvedPile};
use stores::TileStore;

// Reads a tile of a store, and says what it holds.
pub(crate) fn read_tile(store: &mut Pile, k: u32) -> Result<DeskDone, DeskTrouble>
    ensures { CalledOn (desk_said_of result) store.old store.new (read_said (pile_of store.old) k (read (pile_of store.old) k)) (pile_of store.old) }
{
    let mut bytes = [0u8; 64];
    store.read(k, &mut bytes)?;
    Ok(DeskDone::Tile { number: k, bytes })
}

// Writes a tile of which every byte is the same.
pub(crate) fn write_tile(store: &mut Pile, k: u32, value: u8) -> Result<DeskDone, DeskTrouble>
    ensures { CalledOn (desk_said_of result) store.old store.new (write_said k (write (pile_of store.old) k (replicate 64 value))) (store_after (write (pile_of store.old) k (replicate 64 value)) (pile_of store.old) k (replicate 64 value)) }
{
    store.write(k, &[value; 64])?;
    Ok(DeskDone::Written(k))
}

// Reads a tile of a shelf, and says what it holds.
pub(crate) fn read_shelf(shelf: &mut ShelvedPile, k: u32) -> Result<DeskDone, DeskTrouble>
    ensures { ShelfCalled (desk_said_of result) (shelved shelf.new) (read_said (store_of (shelved shelf.old)) k (read (store_of (shelved shelf.old)) k)) (accessed (shelved shelf.old) (reading k)) }
{
    let mut bytes = [0u8; 64];
    shelf.read(k, &mut bytes)?;
    Ok(DeskDone::Tile { number: k, bytes })
}

// Writes a tile of a shelf, of which every byte is the same.
pub(crate) fn write_shelf(
    shelf: &mut ShelvedPile,
    k: u32,
    value: u8,
) -> Result<DeskDone, DeskTrouble>
    ensures { ShelfCalled (desk_said_of result) (shelved shelf.new) (write_said k (write (store_of (shelved shelf.old)) k (replicate 64 value))) (accessed (shelved shelf.old) (writing k (replicate 64 value))) }
{
    shelf.write(k, &[value; 64])?;
    Ok(DeskDone::Written(k))
}

// Reads a tile of the store below a shelf, and says what it holds.
pub(crate) fn read_under(shelf: &mut ShelvedPile, k: u32) -> Result<DeskDone, DeskTrouble>
    ensures { ShelfCalled (desk_said_of result) (shelved shelf.new) (below_said (shelved shelf.old).below k (read (shelved shelf.old).below k)) (shelved shelf.old) }
{
    let mut bytes = [0u8; 64];
    shelf.read_below(k, &mut bytes)?;
    Ok(DeskDone::Below { number: k, bytes })
}
