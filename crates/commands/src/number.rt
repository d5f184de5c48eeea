ghost use Rattle.std.specs.Prelude.{◌≡◌};
ghost use Rattle.commands.specs.Numerals.{numeral};

/// The number that a word writes in decimal digits, if it fits 32 bits.
pub fn read_number(word: &str) -> Option<u32>
    ensures { result ≡ numeral word.now }
{
    // `parse` takes a plus sign too, which is no digit.
    if word.starts_with('+') {
        return None;
    }
    word.parse().ok()
}
