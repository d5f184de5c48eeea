ghost use Rattle.std.specs.Prelude.{◌≡◌, length};
ghost use Rattle.rules.specs.Life.{neighbours, life_cell, life};
ghost use Rattle.rules.specs.Lawful.{life_lawful};

use super::codes::{count_code, window_fits};
use super::numbers::RuleNumbers;
use super::rule::Rule;
use super::site::Site;

/// Conway's Life: a cell lives where three of its eight neighbours do, or two and the cell itself.
#[derive(Clone, Copy)]
pub struct Life;

// How many of the eight neighbours live, of a window of nine codes.
fn living_neighbours(window: &[u8]) -> usize
    requires { length window.now ≡ 9 }
    ensures { result ≡ neighbours window.now }
{
    count_code(&window[0..4], 1) + count_code(&window[5..], 1)
}

// The cell after a step, from its window of nine codes.
fn next_cell(window: &[u8]) -> u8
    requires { length window.now ≡ 9 }
    ensures { result ≡ life_cell window.now }
{
    let neighbours = living_neighbours(window);
    u8::from(neighbours == 3 || (neighbours == 2 && window[4] == 1))
}

impl Rule for Life {
    ghost meaning = { λ _. life };

    ghost lawful = { λ _. life_lawful };

    fn numbers(&self) -> RuleNumbers {
        RuleNumbers {
            id: 1,
            a: 0,
            b: 0,
            c: 0,
            rx: 1,
            ry: 1,
            top: 1,
        }
    }

    fn next(&self, window: &[u8], _at: Site) -> u8 {
        if window_fits(window, 1, 1, 1) {
            next_cell(window)
        } else {
            0
        }
    }
}
