ghost use Rattle.std.specs.Prelude.{◌^◌, ◌<◌, ◌≤◌};

mod road;

/// Nagel and Schreckenberg's vehicles: top speed a (1 to 5), brake b (0 to 65,536) and seed c.
///
/// Code 1+v is a vehicle of speed v; code 0 is an empty cell.
#[derive(Clone, Copy)]
pub struct Vehicles {
    a: u8,
    b: u32,
    c: u32,
    ghost limited: { (1 ≤ a) × (a ≤ 5) × (b ≤ 65536) × (c < 2 ^ 32) },
}
