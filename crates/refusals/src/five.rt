/// A refusal as it is reported: five numbers, of which those that do not apply are 0.
#[derive(Clone, Copy, Debug, Default, PartialEq, Eq)]
pub struct FiveNumbers {
    // A number and no enum, since the five numbers are the form in which the enum `Refusal` is reported.
    pub number: u8,
    pub line: u32,
    pub cause: u8,
    pub tile: u32,
    pub level: u8,
}
