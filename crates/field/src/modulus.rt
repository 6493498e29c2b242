// The listed moduli.
ghost use Rattle.std.specs.Prelude.{◌≡◌};
ghost use Rattle.field.specs.Moduli.{listed};

use crate::Residue;

pub fn is_modulus(p: Residue) -> bool
    ensures { result ≡ listed p }
{
    match p {
        7 | 13 | 17 | 101 | 32003 | 65521 => true,
        _ => false,
    }
}
