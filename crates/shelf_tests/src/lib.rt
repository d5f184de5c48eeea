//! Shelves that are made and called: what each call answers holds with no premise, and some of it is run.
#![tactic(auto)]

ghost use Rattle.std.specs.Prelude.{◌≡◌, slice_index};
ghost use Rattle.stores.specs.Meaning.{read, tile_of, buffer_after};
ghost use Rattle.stores.specs.Layouts.{image, plain_layout, card_layout};
ghost use Rattle.shelves.specs.Shelves.{byte_if, store_of, settled};
ghost use Rattle.shelf_tests.specs.Made.{over, after_put};

use places::Offset;
use refusals::Fault;
use shelf::Shelf;
use stores::{Card, Memory, TileStore};

/// Reads tile k of an empty shelf over a card image.
pub fn read_card(memory: Vec<u8>, k: u32, out: &mut [u8; 64]) -> Result<(), Fault>
    ensures answers { result ≡ read (store_of (over (image card_layout memory.items))) k }
    ensures copies { out.new ≡ buffer_after result (tile_of (store_of (over (image card_layout memory.items))) k) out.old }
{
    let mut shelf = Shelf::new(Card::new(memory));
    shelf.read(k, out)
}

/// A byte of an empty shelf over an empty shelf over plain memory.
pub fn get_through_two(memory: Vec<u8>, k: u32, at: Offset) -> Result<u8, Fault>
    ensures { result ≡ byte_if (read (store_of (over (store_of (over (image plain_layout memory.items))))) k) (slice_index (tile_of (store_of (over (store_of (over (image plain_layout memory.items))))) k) at.index) }
{
    let mut shelf = Shelf::new(Shelf::new(Memory::new(memory)));
    shelf.get(k, at)
}

/// Puts a byte of tile k through a shelf over plain memory, and gives the memory back after it is settled.
pub fn put_and_settle(memory: Vec<u8>, k: u32, at: Offset, byte: u8) -> Vec<u8>
    ensures { image plain_layout result.items ≡ (settled (after_put (over (image plain_layout memory.items)) k at.index byte)).below }
{
    let mut shelf = Shelf::new(Memory::new(memory));
    let _ = shelf.put(k, at, byte);
    shelf.into_below().into_memory()
}

#[cfg(test)]
mod tests;
