ghost use Rattle.std.specs.Prelude.{◌≡◌, ℕ, ◌<◌, ◌≤◌, slice_index};
ghost use Rattle.stores.specs.Raw.{whole_tiles};

// How many whole tiles of `size` bytes lie in so many bytes, at most 1,048,576.
pub(crate) fn whole_tiles(bytes: usize, size: usize) -> u32
    requires { 0 < size }
    ensures { result ≡ whole_tiles size bytes }
{
    (bytes / size).min(1048576) as u32
}

// Says of each byte that it is at most 255. That is known of the items of a slice once one of them is
// read, and not of those of a `Vec`.
pub(crate) fn are_bytes(bytes: &[u8])
    ensures { (i : ℕ) → slice_index bytes.now i ≤ 255 }
{
    if bytes.len() == 0 {
        return;
    }
    let _first = bytes[0];
}
