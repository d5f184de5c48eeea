ghost use Rattle.std.specs.Prelude.{◌≡◌, ◌*◌, ◌≤◌, vec_len};

mod calls;
mod once;

use shapes::Shape;

/// A lattice that is swept plainly, over memory of its own: the reference that a lattice runner is held to.
#[derive(Drop)]
pub struct Plate<R> {
    rule: R,
    shape: Shape,
    step: u32,
    // the codes of the cells by index, and as much memory again for the next step's
    cells: Vec<u8>,
    spare: Vec<u8>,
    ghost some: { (1 ≤ shape.width) × (1 ≤ shape.height) },
    ghost few: { shape.width * shape.height ≤ 16777216 },
    ghost full: { vec_len cells ≡ shape.width * shape.height },
    ghost ready: { vec_len spare ≡ shape.width * shape.height },
    ghost early: { step ≤ 2147483647 },
}
