ghost use Rattle.std.specs.Prelude.{◌≡◌, ◌+◌, ◌*◌, ◌<◌, ◌≤◌, IfOk, vec_len};
ghost use Rattle.refusals.specs.Reported.{reported, Answers};
ghost use Rattle.rules.specs.Codes.{busy};
ghost use Rattle.sweep.specs.Plain.{laid, gets, puts, puts_row, row_of, sweeps_on, Low};
ghost use Rattle.sweep.specs.Plate.{plain_of, AsDefined};

use super::Plate;
use refusals::{Failure, Refusal};
use rules::{Rule, all_within, count_code};
use shapes::{Outline, Shape};
use std::alloc::Global;

/// The most sweeps of one call.
const MOST_STEPS: u32 = 1024;

/// The last step there is.
const LAST_STEP: u32 = 2147483647;

impl<R: Rule + Drop> Plate<R> {
    /// A plate of the shape that an outline asks for, at step 0, with every cell 0.
    pub fn new(heap: Global, rule: R, outline: Outline<'_>) -> Result<Plate<R>, Failure>
        ensures answers { Answers plain_of result (laid (R.Rule.meaning rule) outline.entry.width outline.entry.height outline.entry.edgex.now outline.entry.edgey.now) }
        ensures rule { IfOk result (λ p. p.rule ≡ rule) }
    {
        let shape = Shape::new(outline)?;
        shape.suits(&rule)?;
        let area = shape.width as usize * shape.height as usize;
        let cells = vec![in heap; 0u8; area]?;
        let spare = vec![in heap; 0u8; area]?;
        Ok(Plate {
            rule,
            shape,
            step: 0,
            cells,
            spare,
        })
    }
}

impl<R: Rule> Plate<R> {
    /// The plate's rule.
    pub fn rule(&self) -> &R
        ensures { result.now ≡ self.now.rule }
    {
        &self.rule
    }

    /// The plate's shape.
    pub fn shape(&self) -> Shape
        ensures { result ≡ (plain_of self.now).shape }
    {
        self.shape
    }

    /// The step that the cells are at.
    pub fn step(&self) -> u32
        ensures { result ≡ (plain_of self.now).step }
    {
        self.step
    }

    /// The codes of the cells, by index.
    pub fn cells(&self) -> &[u8]
        ensures { result.now ≡ (plain_of self.now).cells }
    {
        self.cells.as_slice()
    }

    // The index of the first cell of a row.
    fn row_start(&self, y: u32) -> usize
        requires { y < self.now.shape.height }
        ensures is { result ≡ y * self.now.shape.width }
        ensures within { result + self.now.shape.width ≤ vec_len self.now.cells }
    {
        y as usize * self.shape.width as usize
    }

    /// The code of a cell.
    pub fn get(&self, x: u32, y: u32) -> Result<u8, Refusal>
        ensures { reported (λ v. v) result ≡ gets (plain_of self.now) x y }
    {
        if x >= self.shape.width || y >= self.shape.height {
            return Err(Refusal::Outside);
        }
        Ok(self.cells[self.row_start(y) + x as usize])
    }

    /// Sets one cell.
    pub fn put(&mut self, x: u32, y: u32, code: u8) -> Result<(), Refusal>
        ensures { AsDefined (reported (λ u. u) result) self.old self.new (puts (R.Rule.meaning self.old.rule) (plain_of self.old) x y code) }
    {
        if x >= self.shape.width || y >= self.shape.height {
            return Err(Refusal::Outside);
        }
        if code > self.rule.numbers().top {
            return Err(Refusal::HighCode);
        }
        let at = self.row_start(y) + x as usize;
        self.cells[at] = code;
        Ok(())
    }

    /// Sets the first cells of row y, as many as there are codes.
    pub fn put_row(&mut self, y: u32, codes: &[u8]) -> Result<(), Refusal>
        ensures { AsDefined (reported (λ u. u) result) self.old self.new (puts_row (R.Rule.meaning self.old.rule) (plain_of self.old) y codes.now) }
    {
        if y >= self.shape.height || codes.len() > self.shape.width as usize {
            return Err(Refusal::Outside);
        }
        if !all_within(codes, self.rule.numbers().top) {
            return Err(Refusal::HighCode);
        }
        let at = self.row_start(y);
        let cells = self.cells.as_mut_slice();
        cells[at..at + codes.len()].copy_from_slice(codes);
        Ok(())
    }

    /// The codes of row y.
    pub fn row(&self, y: u32) -> Result<&[u8], Refusal>
        ensures { reported (λ s. s.now) result ≡ row_of (plain_of self.now) y }
    {
        if y >= self.shape.height {
            return Err(Refusal::Outside);
        }
        let at = self.row_start(y);
        let cells = self.cells.as_slice();
        Ok(&cells[at..at + self.shape.width as usize])
    }

    /// How many cells are busy.
    pub fn busy(&self) -> usize
        ensures { result ≡ busy (plain_of self.now).cells }
    {
        self.cells.len() - count_code(self.cells.as_slice(), 0)
    }

    /// Sweeps n times, and answers how many cells were updated.
    pub fn sweep(&mut self, n: u32) -> Result<u64, Refusal>
        ensures does { AsDefined (reported (λ u. u) result) self.old self.new (sweeps_on (R.Rule.meaning self.old.rule) (plain_of self.old) n) }
        ensures low { Low (R.Rule.meaning self.old.rule) (plain_of self.old) → Low (R.Rule.meaning self.old.rule) (plain_of self.new) }
    {
        if n > MOST_STEPS || self.step + n > LAST_STEP {
            return Err(Refusal::Steps);
        }
        let mut updates = 0u64;
        for _k in 0..n {
            updates += self.sweep_once();
        }
        Ok(updates)
    }
}
