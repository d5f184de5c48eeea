ghost use Rattle.std.specs.Prelude.{◌≡◌};
ghost use Rattle.shapes.specs.Axis.{inside, place};

use super::shape::{Axis, Edge};
use rules::wrap;

// The place itself, where it lies on an axis of n places.
fn inside(place: i64, n: u32) -> Option<u32>
    ensures { result ≡ inside n place }
{
    u32::try_from(place).ok().filter(|place| *place < n)
}

impl Axis {
    /// The place an offset away from another; None is outside a wall.
    pub fn place(&self, at: u32, offset: i32) -> Option<u32>
        ensures { result ≡ place self.now at offset }
    {
        let to = i64::from(at) + i64::from(offset);
        match self.edge {
            Edge::Ring => Some(wrap(to, self.size)),
            Edge::Wall => inside(to, self.size),
        }
    }
}
