//! Cells in print: one lower-case hexadecimal digit a cell, one line a row.
#![tactic(auto)]

ghost use Rattle.std.specs.Prelude.{◌≡◌, ◌≤◌, true, false, ◌++◌, map, Some, IfOk, vec_items, string_bytes, MatchOption, OnOk};
ghost use Rattle.std.specs.Option.{option_map};
ghost use Rattle.digits.specs.Digits.{digit, is_digit, code_of, row_read, row_line, row_text};

use std::alloc::{AllocError, Global};
use std::fmt;

/// The digit of a code, and `?` for what is no code.
// By ranges: `char::from_digit` gives a `char`, and this a byte.
pub fn digit_of(code: u8) -> u8
    ensures is { result ≡ digit code }
    ensures back { code ≤ 15 → (is_digit result ≡ true) × (code_of result ≡ code) }
{
    match code {
        0..=9 => b'0' + code,
        10..=15 => b'a' + (code - 10),
        _ => b'?',
    }
}

/// The code of a digit.
// By ranges: `char::to_digit` takes upper-case letters too.
pub fn code_of(byte: u8) -> Option<u8>
    ensures { MatchOption result (is_digit byte ≡ false) (λ code. (is_digit byte ≡ true) × (code ≡ code_of byte)) }
{
    match byte {
        b'0'..=b'9' => Some(byte - b'0'),
        b'a'..=b'f' => Some(byte - b'a' + 10),
        _ => None,
    }
}

/// The codes of a row of digits; None where a byte is no digit.
pub fn read_row(heap: Global, digits: &[u8]) -> Result<Option<Vec<u8>>, AllocError>
    ensures { IfOk result (λ row. option_map vec_items row ≡ row_read digits.now) }
{
    // A loop: of a `collect` into an `Option`, std does not say where it is None.
    let mut codes = Vec::new(heap);
    for byte in digits {
        let Some(code) = code_of(*byte) else {
            return Ok(None);
        };
        codes.push(code)?;
    }
    Ok(Some(codes))
}

/// A row of cells; in print its key, and a digit for each cell.
#[derive(Clone, Copy)]
pub struct Row<'a>(pub &'a [u8]);

impl fmt::Display for Row<'_> {
    ghost output = { λ row. Some (row_text row.0.now) };

    fn fmt<W: fmt::Write>(&self, f: &mut fmt::Formatter<W>) -> fmt::Result {
        f.write_str("row=")?;
        for cell in self.0 {
            f.write_char(char::from(digit_of(*cell)))?;
        }
        Ok(())
    }
}

/// Writes a row behind a text: its key, a digit for each cell, and the end of the line.
// Not by the `Display` of `Row`, whose formatter takes a third longer for each cell.
pub fn push_row(out: &mut String, cells: &[u8]) -> Result<(), AllocError>
    ensures { OnOk result (string_bytes out.new ≡ string_bytes out.old ++ row_line cells.now) }
{
    out.push_str("row=")?;
    out.extend(cells.iter().map(|cell| char::from(digit_of(*cell))))?;
    out.push_str("\n")?;
    Ok(())
}
