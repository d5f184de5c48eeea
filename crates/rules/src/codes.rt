ghost use Rattle.std.specs.Prelude.{◌≡◌, ◌≤◌, length};
ghost use Rattle.rules.specs.Codes.{within, times};
ghost use Rattle.rules.specs.Rule.{fits};

/// Whether no code is above the top.
pub fn all_within(codes: &[u8], top: u8) -> bool
    ensures { result ≡ within top codes.now }
{
    codes.iter().all(|code| *code <= top)
}

/// How many of the codes are this one.
pub fn count_code(codes: &[u8], wanted: u8) -> usize
    ensures is { result ≡ times wanted codes.now }
    ensures few { result ≤ length codes.now }
{
    codes.iter().map(|code| usize::from(*code == wanted)).sum()
}

/// Whether a window has the right length and no code above the top.
pub fn window_fits(window: &[u8], rx: u8, ry: u8, top: u8) -> bool
    ensures { result ≡ fits rx ry top window.now }
{
    let length = (2 * usize::from(rx) + 1) * (2 * usize::from(ry) + 1);
    window.len() == length && all_within(window, top)
}
