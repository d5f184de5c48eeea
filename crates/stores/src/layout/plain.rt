ghost use Rattle.stores.specs.Layouts.{plain_layout};
ghost use Rattle.stores.specs.LayoutsLemmas.{plain_sound, plain_told};

use super::Layout;
use refusals::Fault;

/// 64 bytes a tile, top 255, every tile sound.
#[derive(Clone, Copy)]
pub struct Plain;

impl Layout for Plain {
    ghost form = { plain_layout };

    ghost SIZE = { 64 };

    ghost SKIP = { 0 };

    ghost TOP = { 255 };

    ghost told = { plain_told };

    ghost sound = { plain_sound };

    const SIZE: usize = 64;

    const SKIP: usize = 0;

    const TOP: u8 = 255;

    fn check(_k: u32, _first: u8) -> Result<(), Fault> {
        Ok(())
    }

    fn unpack(bytes: &[u8], codes: &mut [u8; 64]) {
        codes.copy_from_slice(bytes);
    }

    fn pack(codes: &[u8; 64], bytes: &mut [u8]) {
        bytes.copy_from_slice(codes);
    }
}
