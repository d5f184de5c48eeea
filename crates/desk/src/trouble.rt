use refusals::Fault;

/// Why a command for stores was not done.
#[derive(Clone, Copy, Debug, PartialEq, Eq)]
pub enum DeskTrouble {
    /// a store refused the call
    Faulted(Fault),
    /// there is no store yet
    NoStore,
    /// there is a window already
    WindowTwice,
    /// there is no shelf yet
    NoShelf,
    /// there is a shelf already
    ShelfTwice,
    /// more tiles than a store may have
    TooManyTiles,
    /// a worn tile that is no number below the count
    BadWorn,
    /// there is not enough memory
    NoMemory,
}
