use super::life::Life;
use super::vehicles::Vehicles;

/// A rule of this crate that is chosen while a program runs.
///
/// An enum and no boxed `dyn Rule`: the set is closed, and whoever makes a boxed rule would hand it out.
#[derive(Clone, Copy)]
pub enum AnyRule {
    Life(Life),
    Vehicles(Vehicles),
}
