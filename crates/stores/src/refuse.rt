ghost use Rattle.std.specs.Prelude.{◌≡◌};
ghost use Rattle.stores.specs.Layers.{passed_on};
ghost use Rattle.stores.specs.Meaning.{any_above};

use refusals::Fault;

/// The cause of a fault: the tile number is at or past the count.
pub const PAST_COUNT: u8 = 10;

/// The cause of a fault: the tile is worn.
pub const WORN: u8 = 11;

/// The cause of a fault: a byte to write is above the top.
pub const ABOVE_TOP: u8 = 12;

/// The fault of tile k by this cause, which no layer has passed on yet.
pub fn fault(cause: u8, k: u32) -> Fault
    ensures { result ≡ record { cause = cause; tile = k; level = 0 } }
{
    Fault {
        cause,
        tile: k,
        level: 0,
    }
}

/// What a layer passes on of what the store below it answered: a fault goes one level up.
pub fn raised(answer: Result<(), Fault>) -> Result<(), Fault>
    ensures { result ≡ passed_on answer }
{
    answer.map_err(|fault| Fault {
        level: fault.level.saturating_add(1),
        ..fault
    })
}

/// Whether a byte is above the top.
pub fn any_above(bytes: &[u8; 64], top: u8) -> bool
    ensures { result ≡ any_above top bytes.now }
{
    // No byte is above 255, and so a store of whole bytes is not searched.
    top < u8::MAX && bytes.iter().any(|b| *b > top)
}
