ghost use Rattle.std.specs.Prelude.{Some};
ghost use Rattle.desk.specs.Written.{bytes_text, done_text, tiles_text, trouble_text};

use super::done::DeskDone;
use super::trouble::DeskTrouble;
use shelves::Entry;
use std::error::Error;
use std::fmt;

// Bytes in print, two hexadecimal digits each.
#[derive(Clone, Copy)]
struct Bytes<'a>(&'a [u8]);

impl fmt::Display for Bytes<'_> {
    ghost output = { λ bytes. Some (bytes_text bytes.0.now) };

    fn fmt<W: fmt::Write>(&self, f: &mut fmt::Formatter<W>) -> fmt::Result {
        for byte in self.0 {
            write!(f, "{byte:02x}")?;
        }
        Ok(())
    }
}

/// The tiles of a shelf in print, front first: a space and the number of each, with an asterisk behind a changed one.
#[derive(Clone, Copy)]
pub struct Tiles<'a>(pub &'a [Entry]);

impl fmt::Display for Tiles<'_> {
    ghost output = { λ tiles. Some (tiles_text tiles.0.now) };

    fn fmt<W: fmt::Write>(&self, f: &mut fmt::Formatter<W>) -> fmt::Result {
        for entry in self.0 {
            let mark = if entry.changed { "*" } else { "" };
            write!(f, " {}{mark}", entry.tile)?;
        }
        Ok(())
    }
}

impl fmt::Display for DeskDone {
    ghost output = { λ done. Some (done_text done) };

    fn fmt<W: fmt::Write>(&self, f: &mut fmt::Formatter<W>) -> fmt::Result {
        match self {
            DeskDone::MemoryMade(n) => write!(f, "store memory: {n} tiles"),
            DeskDone::CardMade { tiles, worn } => write!(
                f,
                "store card: {tiles} tiles, {worn} named as worn"
            ),
            DeskDone::BitsMade(n) => write!(f, "store bits: {n} tiles"),
            DeskDone::WindowMade { first, tiles } => write!(
                f,
                "window: {tiles} tiles from tile {first} on"
            ),
            DeskDone::Count(n) => write!(f, "count {n}"),
            DeskDone::Top(n) => write!(f, "top {n}"),
            DeskDone::Tile { number, bytes } => write!(f, "tile {number} {}", Bytes(bytes)),
            DeskDone::Written(k) => write!(f, "written {k}"),
            DeskDone::ShelfMade => write!(f, "shelf: 64 places"),
            DeskDone::List => write!(f, "list"),
            DeskDone::Fetches(n) => write!(f, "fetches {n}"),
            DeskDone::Settled => write!(f, "settled"),
            DeskDone::Below { number, bytes } => write!(f, "below {number} {}", Bytes(bytes)),
        }
    }
}

impl fmt::Display for DeskTrouble {
    ghost output = { λ trouble. Some (trouble_text trouble) };

    fn fmt<W: fmt::Write>(&self, f: &mut fmt::Formatter<W>) -> fmt::Result {
        match self {
            DeskTrouble::Faulted(fault) => write!(f, "fault {fault}"),
            DeskTrouble::NoStore => write!(f, "no store yet"),
            DeskTrouble::WindowTwice => write!(f, "there is a window already"),
            DeskTrouble::NoShelf => write!(f, "no shelf yet"),
            DeskTrouble::ShelfTwice => write!(f, "there is a shelf already"),
            DeskTrouble::TooManyTiles => write!(f, "a store has at most 1048576 tiles"),
            DeskTrouble::BadWorn => write!(f, "a worn tile is a number below the count"),
            DeskTrouble::NoMemory => write!(f, "not enough memory"),
        }
    }
}

impl Error for DeskTrouble {}
