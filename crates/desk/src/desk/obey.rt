ghost use Rattle.std.specs.Prelude.{◌≡◌, ◌*◌, ◌≤◌, ◌<◌, true, false, Ok, Err, map, replicate};
ghost use Rattle.stores.specs.Layouts.{image, plain_layout, bits_layout};
ghost use Rattle.commands.specs.Commands.{store_asked_of, memory, bits, card, window, count_asked, top_asked, reading, writing, shelf_asked, list_asked, fetches_asked, settle_asked, reading_below};
ghost use Rattle.desk.specs.declared.trouble.DeskTrouble.TheVariants.{TooManyTiles, NoMemory};
ghost use Rattle.desk.specs.Desks.{empty, desk_of, desk_said_of, making, windowing, store_takes_memory, desk_obeyed, list_in, DeskObeys};

use super::{Desk, Stack};
use crate::card::{all_name_tiles, card_memory};
use crate::count::TileCount;
use crate::done::DeskDone;
use crate::tiles::{read_shelf, read_tile, read_under, write_shelf, write_tile};
use crate::trouble::DeskTrouble;
use commands::StoreCommand;
use piles::{AnyStore, Pile};
use shelf::Shelf;
use shelves::Entry;
use std::alloc::Global;
use stores::{Bits, Card, Memory, TileStore, Window};

impl Desk {
    /// A bench with no store yet.
    pub fn new() -> Desk
        ensures { desk_of result ≡ empty }
    {
        Desk { store: None }
    }

    // Plain memory of n tiles. It stands beside `set_bits`: they share the count and the zeros, and the types,
    // variants and answers that are left to each are no plainer behind a closure.
    fn set_memory(&mut self, heap: Global, n: u32) -> Result<DeskDone, DeskTrouble>
        ensures { DeskObeys true (desk_said_of result) (desk_of self.old) (desk_of self.new) (desk_obeyed (desk_of self.old) (memory n)) }
    {
        let bytes = TileCount::new(n)?.zeros(heap, 64)?;
        self.store = Some(Stack::Bare(Pile::Plain(AnyStore::Memory(Memory::new(bytes)))));
        Ok(DeskDone::MemoryMade(n))
    }

    // Bits of n tiles.
    fn set_bits(&mut self, heap: Global, n: u32) -> Result<DeskDone, DeskTrouble>
        ensures { DeskObeys true (desk_said_of result) (desk_of self.old) (desk_of self.new) (desk_obeyed (desk_of self.old) (bits n)) }
    {
        let bytes = TileCount::new(n)?.zeros(heap, 8)?;
        self.store = Some(Stack::Bare(Pile::Plain(AnyStore::Bits(Bits::new(bytes)))));
        Ok(DeskDone::BitsMade(n))
    }

    // A card image of n tiles, of which the named ones are worn.
    fn set_card(&mut self, heap: Global, n: u32, worn: &[&str]) -> Result<DeskDone, DeskTrouble>
        ensures { DeskObeys true (desk_said_of result) (desk_of self.old) (desk_of self.new) (desk_obeyed (desk_of self.old) (card n (map (λ w. w.now) worn.now))) }
    {
        let count = TileCount::new(n)?;
        if !all_name_tiles(worn, n) {
            return Err(DeskTrouble::BadWorn);
        }
        let bytes = card_memory(heap, count, worn)?;
        self.store = Some(Stack::Bare(Pile::Plain(AnyStore::Card(Card::new(bytes)))));
        Ok(DeskDone::CardMade {
            tiles: n,
            worn: worn.len(),
        })
    }

    // A window over the store.
    fn set_window(&mut self, first: u32, tiles: u32) -> Result<DeskDone, DeskTrouble>
        ensures { DeskObeys false (desk_said_of result) (desk_of self.old) (desk_of self.new) (desk_obeyed (desk_of self.old) (window first tiles)) }
    {
        match self.store.take() {
            None => Err(DeskTrouble::NoStore),
            Some(Stack::Bare(Pile::Plain(store))) => {
                let window = Window::new(store, first, tiles);
                self.store = Some(Stack::Bare(Pile::Windowed(window)));
                Ok(DeskDone::WindowMade { first, tiles })
            }
            Some(Stack::Bare(pile)) => {
                self.store = Some(Stack::Bare(pile));
                Err(DeskTrouble::WindowTwice)
            }
            Some(shelved) => {
                self.store = Some(shelved);
                Err(DeskTrouble::ShelfTwice)
            }
        }
    }

    // A shelf over the store.
    fn set_shelf(&mut self) -> Result<DeskDone, DeskTrouble>
        ensures { DeskObeys false (desk_said_of result) (desk_of self.old) (desk_of self.new) (desk_obeyed (desk_of self.old) shelf_asked) }
    {
        match self.store.take() {
            None => Err(DeskTrouble::NoStore),
            Some(Stack::Bare(pile)) => {
                self.store = Some(Stack::Shelved(Shelf::new(pile)));
                Ok(DeskDone::ShelfMade)
            }
            Some(shelved) => {
                self.store = Some(shelved);
                Err(DeskTrouble::ShelfTwice)
            }
        }
    }

    // The count.
    fn count(&self) -> Result<DeskDone, DeskTrouble>
        ensures { DeskObeys false (desk_said_of result) (desk_of self.now) (desk_of self.now) (desk_obeyed (desk_of self.now) count_asked) }
    {
        let count = match self.store.as_ref().ok_or(DeskTrouble::NoStore)? {
            Stack::Bare(pile) => pile.count(),
            Stack::Shelved(shelf) => shelf.count(),
        };
        Ok(DeskDone::Count(count))
    }

    // The top.
    fn top(&self) -> Result<DeskDone, DeskTrouble>
        ensures { DeskObeys false (desk_said_of result) (desk_of self.now) (desk_of self.now) (desk_obeyed (desk_of self.now) top_asked) }
    {
        let top = match self.store.as_ref().ok_or(DeskTrouble::NoStore)? {
            Stack::Bare(pile) => pile.top(),
            Stack::Shelved(shelf) => shelf.top(),
        };
        Ok(DeskDone::Top(top))
    }

    // A tile's bytes.
    fn read(&mut self, k: u32) -> Result<DeskDone, DeskTrouble>
        ensures { DeskObeys false (desk_said_of result) (desk_of self.old) (desk_of self.new) (desk_obeyed (desk_of self.old) (reading k)) }
    {
        match self.store.as_mut().ok_or(DeskTrouble::NoStore)? {
            Stack::Bare(pile) => read_tile(pile, k),
            Stack::Shelved(shelf) => read_shelf(shelf, k),
        }
    }

    // A tile of which every byte becomes the same.
    fn write(&mut self, k: u32, value: u8) -> Result<DeskDone, DeskTrouble>
        ensures { DeskObeys false (desk_said_of result) (desk_of self.old) (desk_of self.new) (desk_obeyed (desk_of self.old) (writing k value)) }
    {
        match self.store.as_mut().ok_or(DeskTrouble::NoStore)? {
            Stack::Bare(pile) => write_tile(pile, k, value),
            Stack::Shelved(shelf) => write_shelf(shelf, k, value),
        }
    }

    // The list is asked for.
    fn ask_list(&self) -> Result<DeskDone, DeskTrouble>
        ensures { DeskObeys false (desk_said_of result) (desk_of self.now) (desk_of self.now) (desk_obeyed (desk_of self.now) list_asked) }
    {
        match self.store.as_ref().ok_or(DeskTrouble::NoStore)? {
            Stack::Bare(_) => Err(DeskTrouble::NoShelf),
            Stack::Shelved(_) => Ok(DeskDone::List),
        }
    }

    // How many tiles the shelf has fetched.
    fn fetches(&self) -> Result<DeskDone, DeskTrouble>
        ensures { DeskObeys false (desk_said_of result) (desk_of self.now) (desk_of self.now) (desk_obeyed (desk_of self.now) fetches_asked) }
    {
        match self.store.as_ref().ok_or(DeskTrouble::NoStore)? {
            Stack::Bare(_) => Err(DeskTrouble::NoShelf),
            Stack::Shelved(shelf) => Ok(DeskDone::Fetches(shelf.fetches())),
        }
    }

    // The changed tiles of the shelf are written below.
    fn settle(&mut self) -> Result<DeskDone, DeskTrouble>
        ensures { DeskObeys false (desk_said_of result) (desk_of self.old) (desk_of self.new) (desk_obeyed (desk_of self.old) settle_asked) }
    {
        match self.store.as_mut().ok_or(DeskTrouble::NoStore)? {
            Stack::Bare(_) => Err(DeskTrouble::NoShelf),
            Stack::Shelved(shelf) => {
                shelf.settle();
                Ok(DeskDone::Settled)
            }
        }
    }

    // A tile's bytes in the store below the shelf.
    fn read_below(&mut self, k: u32) -> Result<DeskDone, DeskTrouble>
        ensures { DeskObeys false (desk_said_of result) (desk_of self.old) (desk_of self.new) (desk_obeyed (desk_of self.old) (reading_below k)) }
    {
        match self.store.as_mut().ok_or(DeskTrouble::NoStore)? {
            Stack::Bare(_) => Err(DeskTrouble::NoShelf),
            Stack::Shelved(shelf) => read_under(shelf, k),
        }
    }

    /// The tiles of the shelf, front first, and none if there is no shelf.
    pub fn list(&self) -> &[Entry]
        ensures { result.now ≡ list_in (desk_of self.now) }
    {
        match &self.store {
            Some(Stack::Shelved(shelf)) => shelf.list(),
            _ => &[],
        }
    }

    /// Does what a command asks for, and answers what it did.
    pub fn obey(&mut self, heap: Global, command: StoreCommand<'_>) -> Result<DeskDone, DeskTrouble>
        ensures { DeskObeys (store_takes_memory (store_asked_of command.entry)) (desk_said_of result) (desk_of self.old) (desk_of self.new) (desk_obeyed (desk_of self.old) (store_asked_of command.entry)) }
    {
        match command {
            StoreCommand::Memory(n) => self.set_memory(heap, n),
            StoreCommand::Card { tiles, worn } => self.set_card(heap, tiles, worn),
            StoreCommand::Bits(n) => self.set_bits(heap, n),
            StoreCommand::Window { first, tiles } => self.set_window(first, tiles),
            StoreCommand::Count => self.count(),
            StoreCommand::Top => self.top(),
            StoreCommand::Read(k) => self.read(k),
            StoreCommand::Write { tile, byte } => self.write(tile, byte),
            StoreCommand::Shelf => self.set_shelf(),
            StoreCommand::List => self.ask_list(),
            StoreCommand::Fetches => self.fetches(),
            StoreCommand::Settle => self.settle(),
            StoreCommand::Below(k) => self.read_below(k),
        }
    }
}
