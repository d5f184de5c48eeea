use super::refusal::Refusal;

/// Why a call that takes memory failed: it was refused, or there was not enough memory.
#[derive(Clone, Copy, Debug, PartialEq, Eq)]
pub enum Failure {
    Refused(Refusal),
    Memory,
}
