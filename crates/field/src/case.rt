// What a call is about: the modulus, both lists of terms, the proposed keys, and the numbers of the proposed points. They travel together.
use crate::{KeyBits, Residue, Term};

#[derive(Clone, Copy)]
pub struct Case<'a> {
    pub modulus: Residue,
    pub first: &'a [Term],
    pub second: &'a [Term],
    pub skeleton: &'a [KeyBits],
    pub points: &'a [Residue],
}
