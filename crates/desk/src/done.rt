/// What was done for a command for stores.
#[derive(Clone, Copy)]
pub enum DeskDone {
    /// plain memory of so many tiles is made
    MemoryMade(u32),
    /// a card image is made, with so many tiles named as worn
    CardMade { tiles: u32, worn: usize },
    /// bits of so many tiles are made
    BitsMade(u32),
    /// a window is made: its first tile, and how many were asked for
    WindowMade { first: u32, tiles: u32 },
    /// the count
    Count(u32),
    /// the top
    Top(u8),
    /// a tile is read
    Tile { number: u32, bytes: [u8; 64] },
    /// a tile is written
    Written(u32),
    /// a shelf is made
    ShelfMade,
    /// the shelf's tiles are asked for, which `Desk::list` shows
    List,
    /// how many tiles the shelf has fetched
    Fetches(u64),
    /// the changed tiles are written below
    Settled,
    /// a tile of the store below the shelf is read
    Below { number: u32, bytes: [u8; 64] },
}
