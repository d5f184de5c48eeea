use shapes::Outline;

/// What a line of a scenario asks for.
#[derive(Clone, Copy)]
pub enum Command<'a> {
    /// an empty line, or a remark
    Nothing,
    /// the rule is Life from here on
    Life,
    /// the rule is vehicles from here on
    Vehicles {
        top_speed: u32,
        brake: u32,
        seed: u32,
    },
    /// a new plate of this outline
    Plate(Outline<'a>),
    /// a row, by its digits
    Row {
        number: u32,
        digits: &'a str,
    },
    /// so many plain sweeps
    Sweep(u32),
    /// a command for stores
    Store(StoreCommand<'a>),
}

/// What a line asks of a store.
#[derive(Clone, Copy)]
pub enum StoreCommand<'a> {
    /// plain memory of so many tiles
    Memory(u32),
    /// a card image of so many tiles, and the words that name those that are worn
    Card { tiles: u32, worn: &'a [&'a str] },
    /// bits of so many tiles
    Bits(u32),
    /// a window over the store
    Window { first: u32, tiles: u32 },
    /// the count
    Count,
    /// the top
    Top,
    /// a tile's bytes
    Read(u32),
    /// a tile of which every byte becomes this one
    Write { tile: u32, byte: u8 },
    /// a shelf over the store
    Shelf,
    /// the tiles of the shelf, front first
    List,
    /// how many tiles the shelf has fetched
    Fetches,
    /// the changed tiles of the shelf are written below
    Settle,
    /// a tile's bytes in the store below the shelf
    Below(u32),
}
