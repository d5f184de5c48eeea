ghost use Rattle.std.specs.Prelude.{◌≡◌, ◌*◌, ◌<◌, ◌≤◌, Ok, Err, replicate, IfOk};
ghost use Rattle.desk.specs.declared.trouble.DeskTrouble.TheVariants.{TooManyTiles};

use super::trouble::DeskTrouble;
use std::alloc::{AllocError, Global};

// The most tiles of a store.
const MOST_TILES: u32 = 1048576;

// How many tiles a store is to have, no more than a store may.
#[derive(Clone, Copy)]
pub(crate) struct TileCount {
    tiles: u32,
    ghost few: { tiles ≤ 1048576 },
}

impl TileCount {
    // A count of n tiles, if a store may have so many.
    pub(crate) fn new(n: u32) -> Result<TileCount, DeskTrouble>
        ensures { elim result [ Ok count ↦ (count.tiles ≡ n) × (n ≤ 1048576) | Err t ↦ (1048576 < n) × (t ≡ TooManyTiles) ] }
    {
        if n > MOST_TILES {
            return Err(DeskTrouble::TooManyTiles);
        }
        Ok(TileCount { tiles: n })
    }

    // How many they are.
    pub(crate) fn tiles(self) -> u32
        ensures { result ≡ self.tiles }
    {
        self.tiles
    }

    // Zeros for all of them, so many bytes a tile.
    pub(crate) fn zeros(self, heap: Global, size: usize) -> Result<Vec<u8>, AllocError>
        requires { size ≤ 65 }
        ensures { IfOk result (λ v. v.items ≡ replicate (size * self.tiles) 0) }
    {
        vec![in heap; 0u8; size * self.tiles as usize]
    }
}
