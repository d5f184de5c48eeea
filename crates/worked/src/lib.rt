//! Worked cases, proved by computing them from the definitions.
#![tactic(auto)]

ghost use Rattle.std.specs.Prelude.{◌≡◌, length};
ghost use Rattle.worked.specs.Cases.{cases, AllHold};

/// How many worked cases there are. All of them hold.
pub fn worked_cases() -> usize
    ensures hold { AllHold cases }
    ensures count { result ≡ length cases }
{
    7
}
