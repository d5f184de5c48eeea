ghost use Rattle.stores.specs.Layouts.{card_layout};
ghost use Rattle.stores.specs.LayoutsLemmas.{card_sound, card_told};

use super::Layout;
use crate::refuse::{WORN, fault};
use refusals::Fault;

/// 65 bytes a tile, of which the first is its mark, top 255; a tile whose mark is not 0 is worn.
#[derive(Clone, Copy)]
pub struct Marked;

// The mark of a tile that is not worn.
const SOUND: u8 = 0;

impl Layout for Marked {
    ghost form = { card_layout };

    ghost SIZE = { 65 };

    ghost SKIP = { 1 };

    ghost TOP = { 255 };

    ghost told = { card_told };

    ghost sound = { card_sound };

    const SIZE: usize = 65;

    const SKIP: usize = 1;

    const TOP: u8 = 255;

    fn check(k: u32, first: u8) -> Result<(), Fault> {
        if first == SOUND {
            Ok(())
        } else {
            Err(fault(WORN, k))
        }
    }

    fn unpack(bytes: &[u8], codes: &mut [u8; 64]) {
        codes.copy_from_slice(bytes);
    }

    fn pack(codes: &[u8; 64], bytes: &mut [u8]) {
        bytes.copy_from_slice(codes);
    }
}
