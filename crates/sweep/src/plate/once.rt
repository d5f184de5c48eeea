ghost use Rattle.std.specs.Prelude.{◌<◌, Ok};
ghost use Rattle.sweep.specs.Plain.{swept_once};
ghost use Rattle.sweep.specs.Plate.{plain_of, AsDefined};

use super::Plate;
use crate::field::Field;
use rules::Rule;

impl<R: Rule> Plate<R> {
    // One sweep, which answers its updates.
    pub(super) fn sweep_once(&mut self) -> u64
        requires { self.old.step < 2147483647 }
        ensures { AsDefined (Ok result) self.old self.new (swept_once (R.Rule.meaning self.old.rule) (plain_of self.old)) }
    {
        let field = Field {
            rule: &self.rule,
            shape: self.shape,
            step: self.step,
            cells: self.cells.as_slice(),
            columns: self.shape.columns(&self.rule),
            rows: self.shape.rows(&self.rule),
        };
        field.sweep_into(self.spare.as_mut_slice());
        std::mem::swap(&mut self.cells, &mut self.spare);
        self.step += 1;
        self.cells.len() as u64
    }
}
