ghost use Rattle.std.specs.Prelude.{map, IfOk};
ghost use Rattle.commands.specs.Words.{Words};

use std::alloc::{AllocError, Global};

/// The words of a line: what stands between white space.
pub fn split_words<'a>(heap: Global, line: &'a str) -> Result<Vec<&'a str>, AllocError>
    ensures { IfOk result (λ v. Words line.now (map (λ w. w.now) v.items)) }
{
    let words = line.split_whitespace().collect(heap)?;
    Ok(words)
}
