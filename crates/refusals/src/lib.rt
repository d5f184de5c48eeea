//! Why a call says no: one enum for all reasons, and the five numbers by which each is reported.
#![tactic(auto)]

ghost use Rattle.std.specs.Prelude.{◌≡◌, Some};
ghost use Rattle.refusals.specs.declared.refusal.Refusal.{Refusal};
ghost use Rattle.refusals.specs.declared.failure.Failure.TheVariants.{Refused, Memory};
ghost use Rattle.refusals.specs.Numbers.{numbers};
ghost use Rattle.refusals.specs.Written.{written, written_fault};

use std::alloc::AllocError;
use std::fmt;

mod failure;
mod fault;
mod five;
mod refusal;

pub use failure::Failure;
pub use fault::Fault;
pub use five::FiveNumbers;
pub use refusal::Refusal;

// The number alone, with 0 for the other four.
fn only(number: u8) -> FiveNumbers
    ensures { result ≡ record { number = number; line = 0; cause = 0; tile = 0; level = 0 } }
{
    FiveNumbers {
        number,
        ..FiveNumbers::default()
    }
}

impl From<Refusal> for FiveNumbers {
    ghost from_gives = { λ refusal r. r ≡ numbers refusal };

    /// The five numbers of the refusal. No other refusal has the same five.
    fn from(refusal: Refusal) -> FiveNumbers
        ensures are { result ≡ numbers refusal }
        ensures apart { (other : Refusal) → numbers other ≡ result → other ≡ refusal }
    {
        match refusal {
            Refusal::Bare => only(20),
            Refusal::Shape => only(21),
            Refusal::ShortRing => only(22),
            Refusal::FewTiles => only(23),
            Refusal::LowTop => only(24),
            Refusal::Unsound(f) => FiveNumbers {
                cause: f.cause,
                tile: f.tile,
                level: f.level,
                ..only(25)
            },
            Refusal::Outside => only(26),
            Refusal::HighCode => only(27),
            Refusal::Steps => only(28),
            Refusal::Cutoff => only(29),
            Refusal::NoLineEnd(line) => FiveNumbers { line, ..only(30) },
            Refusal::WrongKey(line) => FiveNumbers { line, ..only(31) },
            Refusal::WrongValue(line) => FiveNumbers { line, ..only(32) },
            Refusal::OtherValue(line) => FiveNumbers { line, ..only(33) },
            Refusal::HighRowCode(line) => FiveNumbers { line, ..only(34) },
            Refusal::ExtraBytes => only(36),
            Refusal::ShortBuffer => only(37),
            Refusal::VehicleLimits => only(40),
        }
    }
}

impl fmt::Display for FiveNumbers {
    ghost output = { λ n. Some (written n) };

    fn fmt<W: fmt::Write>(&self, f: &mut fmt::Formatter<W>) -> fmt::Result {
        write!(
            f,
            "{} {} {} {} {}",
            self.number, self.line, self.cause, self.tile, self.level
        )
    }
}

impl fmt::Display for Fault {
    ghost output = { λ fault. Some (written_fault fault) };

    fn fmt<W: fmt::Write>(&self, f: &mut fmt::Formatter<W>) -> fmt::Result {
        write!(f, "{} {} {}", self.cause, self.tile, self.level)
    }
}

impl From<Refusal> for Failure {
    ghost from_gives = { λ refusal r. r ≡ Refused refusal };

    fn from(refusal: Refusal) -> Failure {
        Failure::Refused(refusal)
    }
}

impl From<AllocError> for Failure {
    ghost from_gives = { λ _ r. r ≡ Memory };

    fn from(_e: AllocError) -> Failure {
        Failure::Memory
    }
}
