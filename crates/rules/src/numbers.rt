/// The numbers that a rule tells, of which none ever changes.
#[derive(Clone, Copy)]
pub struct RuleNumbers {
    /// the rule's own number, 1 to 65,535; no enum, since a maker's own rule has a number of its own
    pub id: u16,
    /// three numbers of the rule's choice
    pub a: u32,
    pub b: u32,
    pub c: u32,
    /// the column reach, 0 to 8, and the row reach, 0 to 2: how far a window goes to either side
    pub rx: u8,
    pub ry: u8,
    /// the highest code, 1 to 15
    pub top: u8,
}
