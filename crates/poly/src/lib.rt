// Layer 2, polynomials in x, y, z, w modulo a listed prime: keys and lists, the value and the image at a point, division.
// Slices are gone over by `for`, which runs by an index, and not by `position` or a slice's `rev`: their `next` hands over an `Option` of a reference,
// and the module, which is made for 64-bit pointers, reads that wrongly where it is compiled for the handheld's core.
#![tactic(auto)]

use field::{RefusalNumber, Residue};

pub mod division;
mod euclid;
pub mod image;
pub mod key;
pub mod list;
pub mod points;
pub mod quotient;
pub mod rooms;
pub mod value;

// The powers of a variable, 0 to 7.
pub const POWERS: usize = 8;

// Eight numbers below the modulus: the coefficients of x^0 to x^7.
pub type Eight = [Residue; POWERS];

// 0 for a bad point, else one more than the degree of its image. It stays a number, and no option of a degree: it is the length of the image's list of
// coefficients, and it is compared and counted.
pub type Size = u16;

// The image at a point, for the layer above; at a bad point all is 0.
#[derive(Clone, Copy)]
pub struct PointImage {
    pub size: Size,
    pub coefficients: Eight,
}

// What the image service finds: U's coefficients and its degree.
#[derive(Clone, Copy)]
pub struct MonicImage {
    pub coefficients: Eight,
    pub degree: usize,
}

// The leading part that is picked from two lists: which list it is the head of, and how many terms it has.
#[derive(Clone, Copy)]
pub enum Picked {
    First(usize),
    Second(usize),
}

// What a division under a ceiling on its steps stops with, where the divisor is not found to divide: 15 or 18, and the steps taken.
#[derive(Clone, Copy)]
pub struct Stopped {
    pub number: RefusalNumber,
    pub steps: usize,
}
