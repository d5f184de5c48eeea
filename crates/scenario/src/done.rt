use rules::AnyRule;
use shapes::Shape;

/// What was done for a command.
#[derive(Clone, Copy)]
pub enum Done {
    /// nothing was asked for
    Nothing,
    /// the rule is set; there is no plate yet
    Ruled(AnyRule),
    /// a plate of this shape is made
    Plated(Shape),
    /// a row is set
    RowSet {
        number: u32,
        cells: usize,
        busy: usize,
    },
    /// the plate is swept; busy cells before and after
    Swept {
        steps: u32,
        updates: u64,
        before: usize,
        after: usize,
    },
}
