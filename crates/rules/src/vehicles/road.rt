ghost use Rattle.std.specs.Prelude.{◌≡◌, ◌+◌, ◌-◌, ◌*◌, ◌<◌, ◌≤◌, true, length, slice_index};
ghost use Rattle.refusals.specs.Reported.{reported};
ghost use Rattle.rules.specs.Rule.{fits};
ghost use Rattle.rules.specs.Vehicles.{draw, gap, v2, v3, column_behind, arrives, arrival, vehicles_next, vehicles_made, Moved};
ghost use Rattle.rules.specs.Meant.{vehicles_of};
ghost use Rattle.rules.specs.Lawful.{vehicles_lawful};

use super::Vehicles;
use crate::codes::window_fits;
use crate::numbers::RuleNumbers;
use crate::ring::wrap;
use crate::rule::Rule;
use crate::site::Site;
use refusals::Refusal;

// The draw at a step, a column and a row, below 65,536.
fn draw_at(c: u32, t: u32, x: u32, y: u32) -> u32
    ensures { result ≡ draw c t x y }
{
    let u = c
        .wrapping_add(2654435769u32.wrapping_mul(t))
        .wrapping_add(2246822507u32.wrapping_mul(x))
        .wrapping_add(3266489909u32.wrapping_mul(y));
    u / 65536
}

// The cell d columns behind the one that is updated, in a window of the rule's own length.
#[derive(Clone, Copy)]
struct Behind<'a> {
    rule: Vehicles,
    window: &'a [u8],
    at: Site,
    d: u8,
    ghost whole: { length window.now ≡ 2 * rule.a + 1 },
    ghost within_reach: { d ≤ rule.a },
}

impl Vehicles {
    /// Vehicles of top speed a, brake b and seed c.
    pub fn new(a: u32, b: u32, c: u32) -> Result<Vehicles, Refusal>
        ensures { reported vehicles_of result ≡ vehicles_made a b c }
    {
        if a < 1 || a > 5 || b > 65536 {
            return Err(Refusal::VehicleLimits);
        }
        Ok(Vehicles { a: a as u8, b, c })
    }

    // Whether a vehicle stands d columns behind the cell at a site and lands on it.
    fn lands(&self, window: &[u8], at: Site, d: u8) -> bool
        requires whole { length window.now ≡ 2 * self.now.a + 1 }
        requires within_reach { d ≤ self.now.a }
        ensures { result ≡ arrives self.now.a self.now.b self.now.c window.now at.t at.x at.y at.width d }
    {
        let behind = Behind {
            rule: *self,
            window,
            at,
            d,
        };
        behind.code() >= 1 && behind.speed() == d
    }

    // The cell at a site after a step.
    fn next_cell(&self, window: &[u8], at: Site) -> u8
        requires { length window.now ≡ 2 * self.now.a + 1 }
        ensures { result ≡ arrival self.now.a self.now.b self.now.c window.now at.t at.x at.y at.width 0 (self.now.a + 1) }
    {
        (0..self.a + 1)
            .find(|d| self.lands(window, at, *d))
            .map_or(0, |d| 1 + d)
    }
}

impl Behind<'_> {
    // The cell's place in the window.
    fn place(&self) -> usize
        ensures { result ≡ self.now.rule.a - self.now.d }
    {
        usize::from(self.rule.a - self.d)
    }

    // The cell's code.
    fn code(&self) -> u8
        ensures { result ≡ slice_index self.now.window.now (self.now.rule.a - self.now.d) }
    {
        self.window[self.place()]
    }

    // The cell's column.
    fn column(&self) -> u32
        ensures { result ≡ column_behind self.now.at.x self.now.at.width self.now.d }
    {
        wrap(i64::from(self.at.x) - i64::from(self.d), self.at.width)
    }

    // The empty cells directly ahead, at most as many as the top speed.
    fn gap_ahead(&self) -> usize
        ensures { let v = self.now in result ≡ gap v.window.now (v.rule.a - v.d) v.rule.a }
    {
        let i = self.place();
        let ahead = &self.window[i + 1..i + 1 + usize::from(self.rule.a)];
        ahead.iter().take_while(|code| **code == 0).count()
    }

    // The speed before braking of the vehicle that stands there.
    fn free_speed(&self) -> u8
        ensures { let v = self.now in result ≡ v2 v.rule.a v.window.now (v.rule.a - v.d) }
    {
        let speed = usize::from(self.code().saturating_sub(1));
        let faster = (speed + 1).min(usize::from(self.rule.a));
        faster.min(self.gap_ahead()) as u8
    }

    // The draw at the vehicle's own column, below 65,536.
    fn draw(&self) -> u32
        ensures { let v = self.now in result ≡ draw v.rule.c v.at.t (column_behind v.at.x v.at.width v.d) v.at.y }
    {
        draw_at(self.rule.c, self.at.t, self.column(), self.at.y)
    }

    // The speed of the vehicle that stands there.
    fn speed(&self) -> u8
        ensures { let v = self.now in result ≡ v3 v.rule.a v.rule.b v.rule.c v.window.now v.at.t (column_behind v.at.x v.at.width v.d) v.at.y (v.rule.a - v.d) }
    {
        let free = self.free_speed();
        if free >= 1 && self.draw() < self.rule.b {
            free - 1
        } else {
            free
        }
    }
}

impl Rule for Vehicles {
    ghost meaning = { vehicles_of };

    ghost lawful = { λ rule. vehicles_lawful rule };

    fn numbers(&self) -> RuleNumbers {
        RuleNumbers {
            id: 3,
            a: u32::from(self.a),
            b: self.b,
            c: self.c,
            rx: self.a,
            ry: 0,
            top: self.a + 1,
        }
    }

    fn next(&self, window: &[u8], at: Site) -> u8
        ensures is { result ≡ vehicles_next self.now.a self.now.b self.now.c window.now at.t at.x at.y at.width }
        ensures moved { fits self.now.a 0 (self.now.a + 1) window.now ≡ true → Moved self.now.a self.now.b self.now.c window.now at.t at.x at.y at.width result }
    {
        if window_fits(window, self.a, 0, self.a + 1) {
            self.next_cell(window, at)
        } else {
            0
        }
    }
}
