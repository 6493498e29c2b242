// A number with its modulus: they travel together, and each operation hands back a new one.
ghost use Rattle.std.specs.Prelude.{◌≡◌, ◌<◌};
ghost use Rattle.field.specs.Contract.{element, Fit, Invertible, sum_of, difference_of, product_of, plus_product_of, Subtracts, minus_product_of, Inverse};

use crate::{Residue, Wide};

#[derive(Clone, Copy)]
pub struct Element {
    pub modulus: Residue,
    pub value: Residue,
}

impl Element {
    pub const ZERO: Residue = 0;

    pub const ONE: Residue = 1;

    pub fn of(modulus: Residue, value: Residue) -> Element
        ensures { result ≡ element modulus value }
    {
        Element { modulus, value }
    }

    pub fn zero(modulus: Residue) -> Element
        ensures { result ≡ element modulus 0 }
    {
        Element {
            modulus,
            value: Element::ZERO,
        }
    }

    pub fn one(modulus: Residue) -> Element
        ensures { result ≡ element modulus 1 }
    {
        Element {
            modulus,
            value: Element::ONE,
        }
    }

    pub fn sum(self, other: Element) -> Element
        requires { Fit self other }
        ensures { result ≡ sum_of self other }
    {
        let p = self.modulus as Wide;
        let s = (self.value as Wide) + (other.value as Wide);
        if s < p {
            return Element {
                modulus: self.modulus,
                value: s as Residue,
            };
        }
        Element {
            modulus: self.modulus,
            value: (s - p) as Residue,
        }
    }

    pub fn difference(self, other: Element) -> Element
        requires { Fit self other }
        ensures { result ≡ difference_of self other }
    {
        if self.value < other.value {
            return Element {
                modulus: self.modulus,
                value: self.modulus - (other.value - self.value),
            };
        }
        Element {
            modulus: self.modulus,
            value: self.value - other.value,
        }
    }

    pub fn product(self, other: Element) -> Element
        requires { 0 < self.modulus }
        ensures { result ≡ product_of self other }
    {
        let v = (self.value as Wide) * (other.value as Wide) % (self.modulus as Wide);
        Element {
            modulus: self.modulus,
            value: v as Residue,
        }
    }

    // The sum with a product, by one division: below the square of what residues are below, which is what a wide number is below.
    pub fn plus_product(self, a: Element, b: Element) -> Element
        requires { 0 < self.modulus }
        ensures { result ≡ plus_product_of self a b }
    {
        let v = ((self.value as Wide) + (a.value as Wide) * (b.value as Wide))
            % (self.modulus as Wide);
        Element {
            modulus: self.modulus,
            value: v as Residue,
        }
    }

    // The difference to a product, by one division.
    pub fn minus_product(self, a: Element, b: Element) -> Element
        requires { Subtracts self a }
        ensures { result ≡ minus_product_of self a b }
    {
        let opposite = self.modulus - a.value;
        let v = ((self.value as Wide) + (opposite as Wide) * (b.value as Wide))
            % (self.modulus as Wide);
        Element {
            modulus: self.modulus,
            value: v as Residue,
        }
    }

    // By the remainders of the modulus: the value times t is r, and r falls to 1.
    pub fn inverse(self) -> Element
        requires { Invertible self }
        ensures { Inverse self result }
    {
        let p = self.modulus as Wide;
        let mut r = self.value as Wide;
        let mut t: Wide = 1;
        while r != 1 {
            let m = p / r * t % p;
            r = p % r;
            t = (p - m) % p;
        }
        Element {
            modulus: self.modulus,
            value: t as Residue,
        }
    }
}
