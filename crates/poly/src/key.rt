// Keys: the four exponents of a monomial in three bits each. Terms: a key and a coefficient in one number.
ghost use Rattle.std.specs.Prelude.{◌≡◌, ◌+◌, ◌*◌};
ghost use Rattle.poly.specs.Keys.{exponents};
ghost use Rattle.poly.specs.Terms.{key_of, coefficient_of, keyed};
ghost use Rattle.poly.specs.Key.Model.{Packable};

use field::{KeyBits, Residue, Term};

// A key is written out by its bits, `Key { bits: k }`: a `From` would say that all 16 bits are a key, and would read no plainer.
#[derive(Clone, Copy)]
pub struct Key {
    pub bits: KeyBits,
}

impl Key {
    pub const WIDTH: KeyBits = 3;

    pub const MASK: KeyBits = (1 << Key::WIDTH) - 1;

    pub const SHIFT_X: KeyBits = 3 * Key::WIDTH;

    pub const SHIFT_Y: KeyBits = 2 * Key::WIDTH;

    pub const SHIFT_Z: KeyBits = Key::WIDTH;

    // Every key is below.
    pub const LIMIT: KeyBits = 1 << (4 * Key::WIDTH);

    // The bits of a coefficient, which stand below the key in a term, and what every coefficient is below.
    pub const COEFFICIENT: u32 = 16;

    pub const COEFFICIENT_LIMIT: u32 = 1 << Key::COEFFICIENT;

    pub(crate) fn pack(x: KeyBits, y: KeyBits, z: KeyBits, w: KeyBits) -> Key
        requires { Packable x y z w }
        ensures { result.bits ≡ 512 * x + 64 * y + 8 * z + w }
    {
        Key {
            bits: (x << Key::SHIFT_X) | (y << Key::SHIFT_Y) | (z << Key::SHIFT_Z) | w,
        }
    }

    // The key of a term.
    pub fn of(t: Term) -> Key
        ensures { result.bits ≡ key_of t }
    {
        Key {
            bits: (t >> Key::COEFFICIENT) as KeyBits,
        }
    }

    pub fn x(self) -> KeyBits
        ensures { result ≡ (exponents self.bits).x }
    {
        self.bits >> Key::SHIFT_X
    }

    pub fn y(self) -> KeyBits
        ensures { result ≡ (exponents self.bits).y }
    {
        (self.bits >> Key::SHIFT_Y) & Key::MASK
    }

    pub fn z(self) -> KeyBits
        ensures { result ≡ (exponents self.bits).z }
    {
        (self.bits >> Key::SHIFT_Z) & Key::MASK
    }

    pub fn w(self) -> KeyBits
        ensures { result ≡ (exponents self.bits).w }
    {
        self.bits & Key::MASK
    }
}

pub fn coefficient_of(t: Term) -> Residue
    ensures { result ≡ coefficient_of t }
{
    (t % Key::COEFFICIENT_LIMIT) as Residue
}

// The term of a key and a coefficient.
pub fn term(key: KeyBits, coefficient: Residue) -> Term
    ensures { result ≡ keyed key coefficient }
{
    (key as u32) * Key::COEFFICIENT_LIMIT + (coefficient as u32)
}
