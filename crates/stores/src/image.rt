ghost use Rattle.std.specs.Prelude.{ℕ, ◌≤◌, slice_index};

use super::layout::{Bitwise, Marked, Plain};
use std::marker::PhantomData;

mod calls;

/// A store whose tiles lie in memory of its own, one after another, as the layout says.
///
/// Bytes past the last whole tile belong to no tile, and no call touches them.
#[derive(Drop)]
pub struct Image<L> {
    memory: Vec<u8>,
    layout: PhantomData<L>,
    ghost bytes: { (i : ℕ) → slice_index memory.items i ≤ 255 },
}

/// Plain memory as a store: 64 bytes a tile, top 255, every tile sound.
pub type Memory = Image<Plain>;

/// A card image as a store: 65 bytes a tile, of which the first is its mark, top 255.
///
/// A tile whose mark is not 0 is worn, and no call changes a mark.
pub type Card = Image<Marked>;

/// Bits as a store: 8 bytes a tile, top 1, every tile sound.
///
/// Code n of a tile is bit n modulo 8, lowest first, of its byte n/8.
pub type Bits = Image<Bitwise>;
