use refusals::Refusal;

/// Why a command was not done.
#[derive(Clone, Copy, Debug, PartialEq, Eq)]
pub enum Trouble {
    /// refused
    Refused(Refusal),
    /// a plate was asked for before any rule
    NoRule,
    /// a row of so many cells for so many columns
    RowLength { cells: usize, columns: u32 },
    /// no command
    NotUnderstood,
    /// there is not enough memory
    NoMemory,
}
