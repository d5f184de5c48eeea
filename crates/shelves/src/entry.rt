/// A tile on a shelf: its number, whether it was written to since it came from below or was last
/// written there, and its bytes.
#[derive(Clone, Copy, Default)]
pub struct Entry {
    pub tile: u32,
    pub changed: bool,
    pub bytes: [u8; 64],
}
