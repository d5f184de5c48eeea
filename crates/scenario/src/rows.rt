ghost use Rattle.std.specs.Prelude.{◌≡◌, IfOk, string_bytes};
ghost use Rattle.sweep.specs.Plate.{plain_of};
ghost use Rattle.digits.specs.Digits.{row_lines};

use digits::push_row;
use rules::AnyRule;
use std::alloc::{AllocError, Global};
use sweep::Plate;

/// The rows of a plate in print, a line each.
pub fn rows_text(heap: Global, plate: &Plate<AnyRule>) -> Result<String, AllocError>
    ensures { IfOk result (λ t. string_bytes t ≡ row_lines (plain_of plate.now).shape.width (plain_of plate.now).shape.height (plain_of plate.now).cells) }
{
    let mut text = String::new(heap);
    let width = plate.shape().width as usize;
    for row in plate.cells().chunks_exact(width) {
        push_row(&mut text, row)?;
    }
    Ok(text)
}
