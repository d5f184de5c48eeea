ghost use Rattle.std.specs.Prelude.{◌≡◌, ◌*◌, ◌≤◌, map, replicate, IfOk, vec_len};
ghost use Rattle.std.specs.List.{list_all};
ghost use Rattle.desk.specs.Cards.{named, worn_fits, marked_one, marked};
ghost use Rattle.commands.specs.Numerals.{numeral};

use super::count::TileCount;
use commands::read_number;
use std::alloc::{AllocError, Global};

// The tile below n that a word names.
fn tile_named(word: &str, n: u32) -> Option<u32>
    ensures { result ≡ named n (numeral word.now) }
{
    read_number(word).filter(|k| *k < n)
}

// Whether a word names a tile below n.
fn names_tile(word: &str, n: u32) -> bool
    ensures { result ≡ worn_fits n word.now }
{
    tile_named(word, n).is_some()
}

// Whether every word names a tile below n.
pub(crate) fn all_name_tiles(words: &[&str], n: u32) -> bool
    ensures { result ≡ list_all (λ w. worn_fits n w.now) words.now }
{
    words.iter().all(|word| names_tile(word, n))
}

// The memory of a card image, while its marks are set, and how many tiles it has, by which words are judged.
#[derive(Drop)]
struct CardMemory {
    count: TileCount,
    bytes: Vec<u8>,
    ghost sized: { vec_len bytes ≡ 65 * count.tiles },
}

impl CardMemory {
    // Memory of so many tiles, all of mark 0.
    fn new(heap: Global, count: TileCount) -> Result<CardMemory, AllocError>
        ensures tiles { IfOk result (λ c. c.count ≡ count) }
        ensures zeros { IfOk result (λ c. c.bytes.items ≡ replicate (65 * count.tiles) 0) }
    {
        let bytes = count.zeros(heap, 65)?;
        Ok(CardMemory { count, bytes })
    }

    // Sets the mark of the tile that the word names, if it names one.
    fn mark(&mut self, word: &str)
        ensures tiles { self.new.count ≡ self.old.count }
        ensures marks { self.new.bytes.items ≡ marked_one self.old.count.tiles self.old.bytes.items word.now }
    {
        if let Some(k) = tile_named(word, self.count.tiles()) {
            self.bytes[65 * k as usize] = 1;
        }
    }

    // Sets the marks of the tiles that the words name.
    fn mark_all(&mut self, worn: &[&str])
        ensures { self.new.bytes.items ≡ marked self.old.count.tiles self.old.bytes.items (map (λ w. w.now) worn.now) }
    {
        for word in worn {
            self.mark(word);
        }
    }
}

// The memory of a card image of so many tiles, with the marks of the named ones set.
pub(crate) fn card_memory(
    heap: Global,
    count: TileCount,
    worn: &[&str],
) -> Result<Vec<u8>, AllocError>
    ensures { IfOk result (λ v. v.items ≡ marked count.tiles (replicate (65 * count.tiles) 0) (map (λ w. w.now) worn.now)) }
{
    let mut card = CardMemory::new(heap, count)?;
    card.mark_all(worn);
    let CardMemory { count: _, bytes } = card;
    Ok(bytes)
}
