ghost use Rattle.std.specs.Prelude.{◌≡◌, ℕ, ◌≤◌, length, slice_index};
ghost use Rattle.stores.specs.Packing.{unpacked, packed, byte_of};

// Eight bytes are a slice here, since a layout hands on a part of its memory.

// Takes the codes out of eight bytes.
pub(crate) fn unpack(bytes: &[u8], codes: &mut [u8; 64])
    requires { length bytes.now ≡ 8 }
    ensures { codes.new ≡ unpacked bytes.now }
{
    for (n, code) in codes.iter_mut().enumerate() {
        *code = (bytes[n / 8] >> (n % 8)) & 1;
    }
}

// The byte of eight codes, the first in its lowest bit.
fn pack_byte(codes: &[u8]) -> u8
    requires eight { length codes.now ≡ 8 }
    requires low { (i : ℕ) → slice_index codes.now i ≤ 1 }
    ensures { result ≡ byte_of codes.now }
{
    let mut byte = 0;
    for code in codes.iter().rev() {
        byte = 2 * byte + code;
    }
    byte
}

// Puts the codes into eight bytes.
pub(crate) fn pack(codes: &[u8; 64], bytes: &mut [u8])
    requires eight { length bytes.old ≡ 8 }
    requires low { (i : ℕ) → slice_index codes.now i ≤ 1 }
    ensures { bytes.new ≡ packed codes.now }
{
    // By place: of a zip with `chunks_exact` a proof knows no place of the bytes that it writes.
    for (j, byte) in bytes.iter_mut().enumerate() {
        *byte = pack_byte(&codes[8 * j..8 * j + 8]);
    }
}
