/// What lies beyond the ends of an axis: a wall, behind which all reads as 0, or the axis's other end.
#[derive(Clone, Copy, Debug, PartialEq, Eq)]
pub enum Edge {
    Wall,
    Ring,
}

/// A shape as it is asked for, in numbers and words, before it is judged.
#[derive(Clone, Copy, Debug, PartialEq, Eq)]
pub struct Outline<'a> {
    pub width: u32,
    pub height: u32,
    pub edgex: &'a str,
    pub edgey: &'a str,
}

/// The shape of a lattice: its columns, its rows, and the edge of either axis.
#[derive(Clone, Copy, Debug, PartialEq, Eq)]
pub struct Shape {
    pub width: u32,
    pub height: u32,
    pub edgex: Edge,
    pub edgey: Edge,
}

/// An axis as a rule sees it: its edge, the rule's reach along it, and its length.
#[derive(Clone, Copy, Debug, PartialEq, Eq)]
pub struct Axis {
    pub edge: Edge,
    pub reach: u8,
    pub size: u32,
}
