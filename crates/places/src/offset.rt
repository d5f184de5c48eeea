ghost use Rattle.std.specs.Prelude.{◌≡◌, ◌%◌, ◌<◌, ◌≤◌, Some, None};

/// The place of a byte in a tile, 0 to 63.
#[derive(Clone, Copy)]
pub struct Offset {
    index: usize,
    ghost inside: { index < 64 },
}

// `new` and `index` are named like `new` and `get` of `NonZero`: one has nothing to say of a number that it does
// not take, and `TryFrom` and `From` would say no more.
impl Offset {
    /// The offset of byte i of a tile, if a tile has it.
    pub fn new(i: usize) -> Option<Offset>
        ensures { elim result [ Some at ↦ at.index ≡ i | None ↦ 64 ≤ i ] }
    {
        if i < 64 {
            Some(Offset { index: i })
        } else {
            None
        }
    }

    /// The offset that byte i of many tiles in a row has in its own tile.
    pub fn of(i: usize) -> Offset
        ensures { result.index ≡ i % 64 }
    {
        Offset { index: i % 64 }
    }

    /// The offset as a number.
    pub fn index(self) -> usize
        ensures is { result ≡ self.index }
        ensures inside { result < 64 }
    {
        let Offset { index } = self;
        index
    }
}
