ghost use Rattle.std.specs.Prelude.{◌≡◌};
ghost use Rattle.scenario.specs.declared.trouble.Trouble.TheVariants.{Refused, NoMemory};
ghost use Rattle.scenario.specs.Sessions.{trouble_of};

use super::trouble::Trouble;
use refusals::{Failure, Refusal};
use std::alloc::AllocError;

impl From<Refusal> for Trouble {
    ghost from_gives = { λ refusal r. r ≡ Refused refusal };

    fn from(refusal: Refusal) -> Trouble {
        Trouble::Refused(refusal)
    }
}

impl From<AllocError> for Trouble {
    ghost from_gives = { λ _ r. r ≡ NoMemory };

    fn from(_e: AllocError) -> Trouble {
        Trouble::NoMemory
    }
}

impl From<Failure> for Trouble {
    ghost from_gives = { λ failure r. r ≡ trouble_of failure };

    fn from(failure: Failure) -> Trouble {
        match failure {
            Failure::Refused(refusal) => Trouble::Refused(refusal),
            Failure::Memory => Trouble::NoMemory,
        }
    }
}
