ghost use Rattle.std.specs.Prelude.{◌≡◌, ◌+◌, ◌*◌, ◌<◌, ◌≤◌, length, pos, ◌-ℤ◌};
ghost use Rattle.shapes.specs.Axis.{place};
ghost use Rattle.shapes.specs.Shape.{area};
ghost use Rattle.shapes.specs.Shape as lattice;
ghost use Rattle.sweep.specs.Window.{code, window_row, window};
ghost use Rattle.sweep.specs.Sweep.{cell_of, cell_next, cell_at, swept};

use rules::{Rule, Site};
use shapes::{Axis, Shape};

// The codes of the largest window there is: 17 columns by 5 rows.
const LARGEST: usize = 85;

// The cells of a lattice at a step, and the rule that they go on by.
#[derive(Drop)]
pub(crate) struct Field<'a, R: Rule> {
    pub(crate) rule: &'a R,
    pub(crate) shape: Shape,
    pub(crate) step: u32,
    pub(crate) cells: &'a [u8],
    pub(crate) columns: Axis,
    pub(crate) rows: Axis,
    ghost has_columns: { 1 ≤ shape.width },
    ghost few_cells: { area shape ≤ 16777216 },
    ghost columns_are: { columns ≡ lattice.columns (R.Rule.meaning rule.now) shape },
    ghost rows_are: { rows ≡ lattice.rows (R.Rule.meaning rule.now) shape },
}

// The place along an axis of code k of a window round another place.
fn window_place(axis: Axis, at: u32, k: usize) -> Option<u32>
    requires { k < 2 * axis.reach + 1 }
    ensures { result ≡ place axis at (pos k -ℤ pos axis.reach) }
{
    axis.place(at, k as i32 - i32::from(axis.reach))
}

impl<R: Rule> Field<'_, R> {
    // The code at a column and a row, which reads as 0 outside a wall and past the last cell.
    fn code_at(&self, column: Option<u32>, row: Option<u32>) -> u8
        ensures { result ≡ code (cell_of self.now.shape self.now.cells.now) column row }
    {
        let (Some(x), Some(y)) = (column, row) else {
            return 0;
        };
        let index = y as usize * self.shape.width as usize + x as usize;
        self.cells.get(index).copied().unwrap_or(0)
    }

    // One row of the window of a cell in column x, written over all of `out`.
    fn gather_row(&self, x: u32, row: Option<u32>, out: &mut [u8])
        requires { length out.old ≡ 2 * self.now.columns.reach + 1 }
        ensures { out.new ≡ window_row self.now.columns (cell_of self.now.shape self.now.cells.now) x row }
    {
        for (k, code) in out.iter_mut().enumerate() {
            *code = self.code_at(window_place(self.columns, x, k), row);
        }
    }

    // The window of a cell, by rows, which is written over the first codes of `out`.
    fn gather<'b>(&self, x: u32, y: u32, out: &'b mut [u8; LARGEST]) -> &'b [u8]
        ensures { result.now ≡ window self.now.columns self.now.rows (cell_of self.now.shape self.now.cells.now) (x, y) }
    {
        let length = 2 * usize::from(self.columns.reach) + 1;
        let height = 2 * usize::from(self.rows.reach) + 1;
        // By index, since std says nothing of what a slice holds after its `chunks_exact_mut` were written.
        for k in 0..height {
            let row = window_place(self.rows, y, k);
            self.gather_row(x, row, &mut out[k * length..(k + 1) * length]);
        }
        &out[..height * length]
    }

    // One update: the code at step t+1 of the cell of an index.
    fn update(&self, i: u32) -> u8
        ensures { result ≡ cell_next (R.Rule.meaning self.now.rule.now) self.now.shape self.now.step self.now.cells.now (cell_at self.now.shape i) }
    {
        let width = self.shape.width;
        let at = Site {
            t: self.step,
            x: i % width,
            y: i / width,
            width,
        };
        let mut out = [0u8; LARGEST];
        let window = self.gather(at.x, at.y, &mut out);
        self.rule.next(window, at)
    }

    // One sweep, into `out`.
    pub(crate) fn sweep_into(&self, out: &mut [u8])
        requires { length out.old ≡ area self.now.shape }
        ensures { out.new ≡ swept (R.Rule.meaning self.now.rule.now) self.now.shape self.now.step self.now.cells.now }
    {
        for (i, code) in out.iter_mut().enumerate() {
            *code = self.update(i as u32);
        }
    }
}
