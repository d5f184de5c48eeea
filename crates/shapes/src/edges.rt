ghost use Rattle.std.specs.Prelude.{◌≡◌, IfOk, Some};
ghost use Rattle.std.specs.Option.{ok_or};
ghost use Rattle.refusals.specs.declared.refusal.Refusal.TheVariants as refusal;
ghost use Rattle.refusals.specs.Reported.{reported};
ghost use Rattle.shapes.specs.Axis.{long_enough};
ghost use Rattle.shapes.specs.Shape.{edge_of, edge_word, shaped, columns, rows, suited, Limited};

use super::shape::{Axis, Edge, Outline, Shape};
use refusals::Refusal;
use rules::Rule;
use std::fmt;
use std::str::FromStr;

impl FromStr for Edge {
    type Err = Refusal;

    ghost from_str_gives = { λ word r. r ≡ ok_or (edge_of word) refusal.Shape };

    /// The edge that a word names.
    fn from_str(word: &str) -> Result<Edge, Refusal> {
        match word {
            "wall" => Ok(Edge::Wall),
            "ring" => Ok(Edge::Ring),
            _ => Err(Refusal::Shape),
        }
    }
}

impl Edge {
    // It stays beside `Display`, which can fail for want of room, as this cannot.
    /// The word that names the edge.
    pub fn word(self) -> &'static str
        ensures { result.now ≡ edge_word self }
    {
        match self {
            Edge::Wall => "wall",
            Edge::Ring => "ring",
        }
    }
}

impl fmt::Display for Edge {
    ghost output = { λ edge. Some (edge_word edge) };

    fn fmt<W: fmt::Write>(&self, f: &mut fmt::Formatter<W>) -> fmt::Result {
        f.write_str(self.word())
    }
}

impl Axis {
    /// Whether the axis has room for a window: a ring is at least 2×reach+1 long.
    pub fn is_long_enough(&self) -> bool
        ensures { result ≡ long_enough self.now }
    {
        match self.edge {
            Edge::Wall => true,
            Edge::Ring => self.size >= 2 * u32::from(self.reach) + 1,
        }
    }
}

impl Shape {
    /// The shape of an outline, if a lattice may have it.
    pub fn new(outline: Outline<'_>) -> Result<Shape, Refusal>
        ensures answers { reported (λ s. s) result ≡ shaped outline.entry.width outline.entry.height outline.entry.edgex.now outline.entry.edgey.now }
        ensures limited { IfOk result Limited }
    {
        let Outline { width, height, .. } = outline;
        if width < 1 || width > 65535 || height < 1 || height > 65535 {
            return Err(Refusal::Shape);
        }
        if width * height > 16777216 {
            return Err(Refusal::Shape);
        }
        Ok(Shape {
            width,
            height,
            edgex: outline.edgex.parse()?,
            edgey: outline.edgey.parse()?,
        })
    }

    // Two functions, since each reads fields of its own: one of both would still name all six.
    /// The column axis, as the rule sees it.
    pub fn columns<R: Rule>(&self, rule: &R) -> Axis
        ensures { result ≡ columns (R.Rule.meaning rule.now) self.now }
    {
        Axis {
            edge: self.edgex,
            reach: rule.numbers().rx,
            size: self.width,
        }
    }

    /// The row axis, as the rule sees it.
    pub fn rows<R: Rule>(&self, rule: &R) -> Axis
        ensures { result ≡ rows (R.Rule.meaning rule.now) self.now }
    {
        Axis {
            edge: self.edgey,
            reach: rule.numbers().ry,
            size: self.height,
        }
    }

    /// Refuses a ring that is too short for the rule's window.
    pub fn suits<R: Rule>(&self, rule: &R) -> Result<(), Refusal>
        ensures { reported (λ u. u) result ≡ suited (R.Rule.meaning rule.now) self.now }
    {
        if self.columns(rule).is_long_enough() && self.rows(rule).is_long_enough() {
            Ok(())
        } else {
            Err(Refusal::ShortRing)
        }
    }
}
