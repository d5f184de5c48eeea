use rules::AnyRule;
use sweep::Plate;

mod obey;

/// How far a scenario has come: it has no rule yet, a rule, or a plate with its rule.
#[derive(Drop)]
pub enum Session {
    Fresh,
    Ruled(AnyRule),
    Laid(Plate<AnyRule>),
}
