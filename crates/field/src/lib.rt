// Layer 1, arithmetic: the listed moduli, numbers modulo one of them, and the refusal numbers of every service.
#![tactic(auto)]

mod case;
mod elements;
mod faults;
mod modulus;
mod services;
mod sizes;

pub use case::Case;
pub use elements::Element;
pub use faults::Fault;
pub use modulus::is_modulus;
pub use services::{ask_difference, ask_inverse, ask_product, ask_sum};
pub use sizes::{
    COORDINATES, KeyBits, ListNumber, MOST_KEYS, MOST_POINT_NUMBERS, MOST_POINTS, MOST_TERMS,
    RefusalNumber, Residue, Term, Wide,
};
