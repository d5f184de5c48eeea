ghost use Rattle.std.specs.Prelude.{Some};
ghost use Rattle.rules.specs.Meant.{any_of};
ghost use Rattle.rules.specs.Written.{written};
ghost use Rattle.rules.specs.Lawful.{vehicles_lawful, life_lawful};
ghost use Rattle.rules.specs.declared.choice.AnyRule.TheVariants as choice;

use super::choice::AnyRule;
use super::life::Life;
use super::numbers::RuleNumbers;
use super::rule::Rule;
use super::site::Site;
use super::vehicles::Vehicles;
use std::fmt;

impl Rule for AnyRule {
    ghost meaning = { any_of };

    ghost lawful = { elim [ choice.Life rule ↦ life_lawful | choice.Vehicles rule ↦ vehicles_lawful rule ] };

    fn numbers(&self) -> RuleNumbers {
        match self {
            AnyRule::Life(rule) => rule.numbers(),
            AnyRule::Vehicles(rule) => rule.numbers(),
        }
    }

    fn next(&self, window: &[u8], at: Site) -> u8 {
        match self {
            AnyRule::Life(rule) => rule.next(window, at),
            AnyRule::Vehicles(rule) => rule.next(window, at),
        }
    }
}

impl fmt::Display for AnyRule {
    ghost output = { λ rule. Some (written rule) };

    fn fmt<W: fmt::Write>(&self, f: &mut fmt::Formatter<W>) -> fmt::Result {
        match *self {
            AnyRule::Life(_) => f.write_str("life"),
            AnyRule::Vehicles(rule) => {
                let RuleNumbers { a, b, c, .. } = rule.numbers();
                write!(f, "vehicles {a} {b} {c}")
            }
        }
    }
}
