ghost use Rattle.std.specs.Prelude.{◌≡◌};
ghost use Rattle.rules.specs.Rings.{wrap};

/// z modulo n, and 0 where n is 0: the place on a ring of n places.
pub fn wrap(z: i64, n: u32) -> u32
    ensures { result ≡ wrap n z }
{
    if n == 0 {
        return 0;
    }
    let place = z.rem_euclid(i64::from(n));
    place as u32
}
