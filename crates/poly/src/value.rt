// The value of a list of terms at a point, and of a monomial. There is no table of powers: each is worked as it is wanted.
ghost use Rattle.std.specs.Prelude.{◌≡◌, ◌*◌, ◌%◌, ◌^◌, ◌<◌};
ghost use Rattle.field.specs.Contract.{element};
ghost use Rattle.poly.specs.Keys.{exponents};
ghost use Rattle.poly.specs.Value.Monomial.{times_power_of, head, Factors, BitReady, PowerReady, Rises};
ghost use Rattle.poly.specs.Value.Model.{CanEvaluate, Valued};

use crate::key::Key;
use crate::{Eight, POWERS};
use field::{Element, KeyBits, Residue, Term};

// a y^n, for n 0 or 1.
fn times_bit(a: Element, y: Element, n: KeyBits) -> Element
    requires { BitReady a y n }
    ensures { result ≡ times_power_of a y n }
{
    if n == 0 { a } else { a.product(y) }
}

// a y^n, by the three bits of n. Where a loop calls it with one y, the compiler works the squares before the loop.
fn times_power(a: Element, y: Element, n: KeyBits) -> Element
    requires { PowerReady a y n }
    ensures { result ≡ times_power_of a y n }
{
    let y2 = y.product(y);
    let y4 = y2.product(y2);
    let b = times_bit(a, y, n % 2);
    let c = times_bit(b, y2, n / 2 % 2);
    times_bit(c, y4, n / 4)
}

// a y^n, by n products: the shorter way where n is mostly 0 or 1.
fn raised(a: Element, y: Element, n: KeyBits) -> Element
    requires { Factors a y }
    ensures { result ≡ times_power_of a y n }
{
    let mut r = a;
    for _ in 0..n {
        r = r.product(y);
    }
    r
}

// y^b z^c w^d for the exponents of a key: for the equations of the layer above.
pub fn monomial_at(y: Element, z: Element, w: Element, k: Key) -> Element
    requires { (1 < y.modulus) × (z.modulus ≡ y.modulus) × (w.modulus ≡ y.modulus) }
    ensures { result ≡ element y.modulus ((y.value ^ (exponents k.bits).y * z.value ^ (exponents k.bits).z
        * w.value ^ (exponents k.bits).w) % y.modulus) }
{
    let one = Element::one(y.modulus);
    let a = times_power(one, y, k.y());
    let b = times_power(a, z, k.z());
    times_power(b, w, k.w())
}

// y^b z^c for the exponents of the key k, from yz, that of the key before, which is not greater. In a long list x and y
// mostly have the same exponents in both, and z has risen by little.
fn risen(yz: Element, y: Element, z: Element, before: Key, k: Key) -> Element
    requires { Rises yz y z before.bits k.bits }
    ensures { result ≡ element y.modulus (head y.value z.value k.bits % y.modulus) }
{
    if (k.bits >> Key::SHIFT_Y) != (before.bits >> Key::SHIFT_Y) {
        let one = Element::one(y.modulus);
        return raised(raised(one, y, k.y()), z, k.z());
    }
    // At most 7: the remainder tells the compiler so.
    let n = ((k.bits >> Key::SHIFT_Z) - (before.bits >> Key::SHIFT_Z)) % (POWERS as KeyBits);
    raised(yz, z, n)
}

// r becomes the value, eight coefficients in x. What it has at the list's highest power of x, the x-leading coefficient, is handed back.
// It goes from the last term to the first, so that keys rise, and counts the terms in 16 bits, which is one register of the handheld's core.
pub(crate) fn value(p: Residue, point: &[Residue], terms: &[Term], r: &mut Eight) -> Residue
    requires { CanEvaluate p point.now terms.now }
    ensures { Valued p point.now terms.now r.new result }
{
    let y = Element::of(p, point[0]);
    let z = Element::of(p, point[1]);
    let w = Element::of(p, point[2]);
    *r = [Element::ZERO; POWERS];
    let mut yz = Element::one(p);
    let mut before = Key { bits: 0 };
    for i in (0..terms.len() as u16).rev() {
        let t = terms[i as usize];
        let k = Key::of(t);
        let v = times_power(Element::of(p, crate::key::coefficient_of(t)), w, k.w());
        yz = risen(yz, y, z, before, k);
        let x = k.x() as usize;
        r[x] = Element::of(p, r[x]).plus_product(v, yz).value;
        before = k;
    }
    r[Key::of(terms[0]).x() as usize]
}
