ghost use Rattle.std.specs.Prelude.{◌≡◌};
ghost use Rattle.desk.specs.declared.trouble.DeskTrouble.TheVariants.{Faulted, NoMemory};

use super::trouble::DeskTrouble;
use refusals::Fault;
use std::alloc::AllocError;

impl From<Fault> for DeskTrouble {
    ghost from_gives = { λ fault r. r ≡ Faulted fault };

    fn from(fault: Fault) -> DeskTrouble {
        DeskTrouble::Faulted(fault)
    }
}

impl From<AllocError> for DeskTrouble {
    ghost from_gives = { λ _ r. r ≡ NoMemory };

    fn from(_e: AllocError) -> DeskTrouble {
        DeskTrouble::NoMemory
    }
}
