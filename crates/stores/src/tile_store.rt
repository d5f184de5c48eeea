ghost use Rattle.std.specs.Prelude.{◌≡◌};
ghost use Rattle.stores.specs.Meaning.{Store, Lawful, Access, reading, writing, ReadAs, WrittenAs, count as tiles_of};

use refusals::Fault;

/// A store of tiles. A tile is 64 bytes with one code each.
///
/// Whatever a store is made of, it has one meaning: a top byte, the bytes of each tile, and for each
/// tile either that it is sound or one fault. The four calls are told by that meaning alone. Only a
/// write that is accepted changes it, and of it only the bytes of one tile.
pub trait TileStore {
    /// what the store is, to whoever calls it
    ghost meaning: { Self → Store };

    /// what an access makes of a value, by which a layer says which accesses it makes, and in which order
    ghost steps: { Self → Access → Self → Type 0 } = { λ _ _ _. Unit {0} };

    /// How many tiles there are.
    fn count(&self) -> u32
        ensures { result ≡ tiles_of (meaning self.now) };

    /// The highest byte that a tile may hold.
    fn top(&self) -> u8
        ensures { result ≡ (meaning self.now).top };

    /// Copies the bytes of tile k into `out`.
    ///
    /// Refused exactly if k is at or past the count, with cause 10, tile k and level 0, or else if the
    /// tile is not sound, with its own fault. Then `out` stays as it was. The store never changes.
    fn read(&mut self, k: u32, out: &mut [u8; 64]) -> Result<(), Fault>
        ensures does { ReadAs (meaning self.old) k out.old result out.new (meaning self.new) }
        ensures steps { steps self.old (reading k) self.new };

    /// Replaces the bytes of tile k, and changes nothing else.
    ///
    /// Refused exactly if k is at or past the count, with cause 10, tile k and level 0, or else if a byte
    /// is above the top, with cause 12, tile k and level 0, or else if the tile is not sound, with its
    /// own fault. Then nothing changes.
    fn write(&mut self, k: u32, bytes: &[u8; 64]) -> Result<(), Fault>
        ensures does { WrittenAs (meaning self.old) k bytes.now result (meaning self.new) }
        ensures steps { steps self.old (writing k bytes.now) self.new };

    /// 64 bytes a tile, none above the top, and at most 1,048,576 tiles
    ghost lawful: { (s : Self) → Lawful (meaning s) };
}
