ghost use Rattle.std.specs.Prelude.{◌≡◌};
ghost use Rattle.rules.specs.Rule.{RuleMeaning, LawfulRule, numbers_of};

use super::numbers::RuleNumbers;
use super::site::Site;

/// A rule of a lattice: its numbers, and the code that a cell has next.
pub trait Rule {
    /// all that the rule is
    ghost meaning: { Self → RuleMeaning };

    /// The rule's numbers.
    fn numbers(&self) -> RuleNumbers
        ensures { result ≡ numbers_of (meaning self.now) };

    /// The code at step t+1 of the cell at a site, whose window at step t this is, by rows.
    fn next(&self, window: &[u8], at: Site) -> u8
        ensures { result ≡ (meaning self.now).next window.now at.t at.x at.y at.width };

    /// the limits of its numbers, and what next may answer
    ghost lawful: { (rule : Self) → LawfulRule (meaning rule) };
}
