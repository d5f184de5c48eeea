/// The cell that is updated: the step, its column and row, and the width of the lattice.
#[derive(Clone, Copy, Debug, PartialEq, Eq)]
pub struct Site {
    pub t: u32,
    pub x: u32,
    pub y: u32,
    pub width: u32,
}
