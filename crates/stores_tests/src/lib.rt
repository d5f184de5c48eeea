//! Stores that are made and called: what each call answers holds with no premise, and some of it is run.
#![tactic(auto)]

ghost use Rattle.std.specs.Prelude.{◌≡◌};
ghost use Rattle.stores.specs.Meaning.{read, write, tile_of, buffer_after};
ghost use Rattle.stores.specs.Layers.{window};
ghost use Rattle.stores.specs.Layouts.{image, plain_layout, card_layout, bits_layout, memory_after};

use refusals::Fault;
use stores::{Bits, Card, Memory, TileStore, Window};

/// Reads tile k of plain memory.
pub fn read_memory(memory: Vec<u8>, k: u32, out: &mut [u8; 64]) -> Result<(), Fault>
    ensures answers { result ≡ read (image plain_layout memory.items) k }
    ensures copies { out.new ≡ buffer_after result (tile_of (image plain_layout memory.items) k) out.old }
{
    let mut store = Memory::new(memory);
    store.read(k, out)
}

// One function for each store: `Layout` is not exported, so that none can be written here for every layout.

/// Writes tile k of a card image, and gives the memory back.
pub fn write_card(memory: Vec<u8>, k: u32, bytes: &[u8; 64]) -> Vec<u8>
    ensures { result.items ≡ memory_after card_layout (write (image card_layout memory.items) k bytes.now) memory.items k bytes.now }
{
    let mut store = Card::new(memory);
    let _ = store.write(k, bytes);
    store.into_memory()
}

/// Writes tile k of bits, and gives the memory back.
pub fn write_bits(memory: Vec<u8>, k: u32, bytes: &[u8; 64]) -> Vec<u8>
    ensures { result.items ≡ memory_after bits_layout (write (image bits_layout memory.items) k bytes.now) memory.items k bytes.now }
{
    let mut store = Bits::new(memory);
    let _ = store.write(k, bytes);
    store.into_memory()
}

/// Reads tile k of a window over a window over a card image.
pub fn read_windows(memory: Vec<u8>, k: u32, out: &mut [u8; 64]) -> Result<(), Fault>
    ensures answers { result ≡ read (window 1 2 (window 3 9 (image card_layout memory.items))) k }
    ensures copies { out.new ≡ buffer_after result (tile_of (window 1 2 (window 3 9 (image card_layout memory.items))) k) out.old }
{
    let mut store = Window::new(Window::new(Card::new(memory), 3, 9), 1, 2);
    store.read(k, out)
}

#[cfg(test)]
mod tests;
