/// Why a store refused a call: the cause, the number of the tile, and the level,
/// which is how many layers the fault has come up through.
///
/// The cause is a number and no enum: a maker's own store may have causes of its own, and an enum
/// with a case for any other number would give a number two values, and two refusals the same five.
#[derive(Clone, Copy, Debug, PartialEq, Eq)]
pub struct Fault {
    pub cause: u8,
    pub tile: u32,
    pub level: u8,
}
