ghost use Rattle.stores.specs.Layouts.{bits_layout};
ghost use Rattle.stores.specs.LayoutsLemmas.{bits_sound, bits_told};

use super::Layout;
use crate::packing::{pack, unpack};
use refusals::Fault;

/// 8 bytes a tile, top 1, every tile sound; code n is bit n modulo 8, lowest first, of byte n/8.
#[derive(Clone, Copy)]
pub struct Bitwise;

impl Layout for Bitwise {
    ghost form = { bits_layout };

    ghost SIZE = { 8 };

    ghost SKIP = { 0 };

    ghost TOP = { 1 };

    ghost told = { bits_told };

    ghost sound = { bits_sound };

    const SIZE: usize = 8;

    const SKIP: usize = 0;

    const TOP: u8 = 1;

    fn check(_k: u32, _first: u8) -> Result<(), Fault> {
        Ok(())
    }

    fn unpack(bytes: &[u8], codes: &mut [u8; 64]) {
        unpack(bytes, codes);
    }

    fn pack(codes: &[u8; 64], bytes: &mut [u8]) {
        pack(codes, bytes);
    }
}
