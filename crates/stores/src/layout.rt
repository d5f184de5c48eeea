ghost use Rattle.std.specs.Prelude.{◌≡◌, ℕ, false, length};
ghost use Rattle.stores.specs.Meaning.{unless_fault, any_above};
ghost use Rattle.stores.specs.Layouts.{Layout as Form, Told};
ghost use Rattle.stores.specs.Images.{Sound};

use refusals::Fault;

mod bitwise;
mod marked;
mod plain;

pub use bitwise::Bitwise;
pub use marked::Marked;
pub use plain::Plain;

/// How the tiles of a store lie in memory, one after another.
///
/// No function has a body of its own here: what two of three layouts do would need a law that the third breaks.
pub trait Layout {
    /// all that the layout is
    ghost form: { Form };

    ghost SIZE: { ℕ };

    ghost SKIP: { ℕ };

    ghost TOP: { ℕ };

    /// The bytes of memory that a tile takes.
    const SIZE: usize;

    /// How many of these stand before those that hold its codes.
    const SKIP: usize;

    /// The highest code.
    const TOP: u8;

    /// Refuses tile k if it is not sound, by the first byte that it takes.
    fn check(k: u32, first: u8) -> Result<(), Fault>
        ensures { result ≡ unless_fault (form.fault k first) };

    /// Takes the codes of a tile out of the bytes that hold them.
    fn unpack(bytes: &[u8], codes: &mut [u8; 64])
        requires { length bytes.now ≡ form.width }
        ensures { codes.new ≡ form.codes bytes.now };

    /// Puts the codes of a tile into the bytes that hold them.
    fn pack(codes: &[u8; 64], bytes: &mut [u8])
        requires wide { length bytes.old ≡ form.width }
        requires low { any_above form.top codes.now ≡ false }
        ensures { bytes.new ≡ form.bytes codes.now };

    /// the numbers are the layout's
    ghost told: { Told form SIZE SKIP TOP };

    /// memory that is laid out so is a store
    ghost sound: { Sound form };
}
