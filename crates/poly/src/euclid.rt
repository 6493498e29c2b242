// The greatest common divisor and the quotient of two polynomials in x, each as eight numbers modulo p, the coefficient of x^0 first. They are changed
// in place.
ghost use Rattle.std.specs.Prelude.{◌≡◌, ◌-◌};
ghost use Rattle.poly.specs.Euclid.Model.{size as size_of, scaled as scaled_of, monic as monic_of, subtract as subtract_of, remainder as remainder_of, quotient as quotient_of};
ghost use Rattle.poly.specs.Euclid.Steps.{Scalable, Divisible, Step, Reducible, CanTurn, Stepped, Pair, IsDivisor};

use crate::{Eight, POWERS, Size};
use field::{Element, Residue};

// The place after the highest number that is not 0.
fn size(f: &Eight) -> Size
    ensures { result ≡ size_of f.now }
{
    for i in (0..POWERS).rev() {
        if f[i] != 0 {
            return i as Size + 1;
        }
    }
    0
}

// Each number times c.
fn scale(c: Element, f: &mut Eight)
    requires { Scalable c.modulus f.old }
    ensures { f.new ≡ scaled_of c.modulus c.value f.old }
{
    for n in f.iter_mut() {
        *n = c.product(Element::of(c.modulus, *n)).value;
    }
}

// All divided by the number at n.
fn make_monic(p: Residue, n: usize, f: &mut Eight)
    requires { Divisible p n f.old }
    ensures { f.new ≡ monic_of p n f.old }
{
    let lead = Element::of(p, f[n]);
    let v = lead.inverse();
    scale(v, f);
}

// f becomes f - c x^k g.
fn subtract(c: Element, k: usize, f: &mut Eight, g: &Eight)
    requires { Step c.modulus c.value k f.old }
    ensures { f.new ≡ subtract_of c.modulus c.value k f.old g.now }
{
    for i in k..POWERS {
        let a = Element::of(c.modulus, f[i]);
        f[i] = a.minus_product(c, Element::of(c.modulus, g[i - k])).value;
    }
}

// f becomes its remainder by g, which is monic of degree m.
fn reduce(p: Residue, m: usize, f: &mut Eight, g: &Eight)
    requires { Reducible p m f.old }
    ensures { f.new ≡ remainder_of p m g.now (8 - m) f.old }
{
    for k in (0..POWERS - m).rev() {
        let c = Element::of(p, f[k + m]);
        subtract(c, k, f, g);
    }
}

// q becomes the quotient of f by g, which is monic of degree m; f becomes its remainder.
pub(crate) fn divide(p: Residue, m: usize, f: &mut Eight, g: &Eight, q: &mut Eight)
    requires { Reducible p m f.old }
    ensures { q.new ≡ quotient_of p m g.now f.old }
{
    *q = [Element::ZERO; POWERS];
    for k in (0..POWERS - m).rev() {
        let c = Element::of(p, f[k + m]);
        q[k] = c.value;
        subtract(c, k, f, g);
    }
}

// A turn of Euclid's algorithm: g, of size n, is made monic, and f becomes its remainder by g, whose size is handed back.
fn turn(p: Residue, n: Size, f: &mut Eight, g: &mut Eight) -> Size
    requires { CanTurn p n f.old g.old }
    ensures { Stepped p n f.old g.old f.new g.new result }
{
    let m = n as usize - 1;
    make_monic(p, m, g);
    reduce(p, m, f, g);
    size(f)
}

// g, which is not 0, becomes the monic greatest common divisor of f and g; its size. The two take turns, so that nothing is copied.
pub(crate) fn gcd(p: Residue, f: &mut Eight, g: &mut Eight) -> Size
    requires { Pair p f.old g.old }
    ensures { IsDivisor p f.old g.old g.new result }
{
    let mut n = size(g);
    while n > 0 {
        let m = turn(p, n, f, g);
        if m == 0 {
            return n;
        }
        n = turn(p, m, g, f);
    }
    *g = *f;
    size(g)
}
