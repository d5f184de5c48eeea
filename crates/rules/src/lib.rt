//! Rules of a lattice: what every rule tells and shows, Conway's Life, and Nagel and Schreckenberg's vehicles.
#![tactic(auto)]

mod any;
mod choice;
mod codes;
mod life;
mod numbers;
mod ring;
mod rule;
mod site;
mod vehicles;

pub use choice::AnyRule;
pub use codes::{all_within, count_code, window_fits};
pub use life::Life;
pub use numbers::RuleNumbers;
pub use ring::wrap;
pub use rule::Rule;
pub use site::Site;
pub use vehicles::Vehicles;
