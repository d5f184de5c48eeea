use super::fault::Fault;

/// Why a call on a lattice, a plate, a saved text or a rule was refused.
///
/// A variant that holds a number holds the line of the text.
#[derive(Clone, Copy, Debug, PartialEq, Eq)]
pub enum Refusal {
    /// nothing is laid yet
    Bare,
    /// a width or height that no lattice has, too many cells, or an edge that is neither wall nor ring
    Shape,
    /// a ring shorter than a window
    ShortRing,
    /// fewer tiles than two planes take
    FewTiles,
    /// the rule's top code is above the store's top byte
    LowTop,
    /// a tile that is to be read is not sound
    Unsound(Fault),
    /// a cell or a region that is not inside
    Outside,
    /// a code above the rule's top
    HighCode,
    /// too many steps at once, or a step past the last
    Steps,
    /// a span or a rise outside its limits
    Cutoff,
    /// no end of line is left for this line
    NoLineEnd(u32),
    /// the line begins with another key
    WrongKey(u32),
    /// the value has another form, or is past its limit
    WrongValue(u32),
    /// the value is not the lattice's
    OtherValue(u32),
    /// a row holds a code above the rule's top
    HighRowCode(u32),
    /// bytes stand after the last line
    ExtraBytes,
    /// the buffer is shorter than the text
    ShortBuffer,
    /// a top speed or a brake that no vehicle rule has
    VehicleLimits,
}
