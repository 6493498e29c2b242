// Case files. The reader: from bytes to the modulus and the four lists, or a refusal. The writer: the way back.
#![tactic(auto)]

ghost use Rattle.case_file.specs.Handed.{Lends};

use field::{Case, KeyBits, MOST_KEYS, MOST_POINT_NUMBERS, MOST_TERMS, Residue, Term};

mod reader;
mod record;
mod writer;

pub use reader::{read, read_into, read_one_into};
pub use record::Kind;
pub use writer::write;

// An array for the most numbers of each list.
pub type Terms = [Term; MOST_TERMS];

pub type Keys = [KeyBits; MOST_KEYS];

pub type PointNumbers = [Residue; MOST_POINT_NUMBERS];

// What is read beside the lists: how many numbers each of them has, and the offset after the end record.
#[derive(Clone, Copy)]
pub struct Counts {
    pub next: usize,
    pub modulus: Residue,
    pub first: usize,
    pub second: usize,
    pub skeleton: usize,
    pub points: usize,
}

#[derive(Clone, Copy)]
pub struct Contents {
    pub modulus: Residue,
    pub first: Terms,
    pub first_count: usize,
    pub second: Terms,
    pub second_count: usize,
    pub skeleton: Keys,
    pub skeleton_count: usize,
    pub points: PointNumbers,
    pub points_count: usize,
}

impl Contents {
    // What was read, to be lent on.
    pub fn case(&self) -> Case<'_>
        ensures { Lends self.now result }
    {
        Case {
            modulus: self.modulus,
            first: &self.first[..self.first_count.min(MOST_TERMS)],
            second: &self.second[..self.second_count.min(MOST_TERMS)],
            skeleton: &self.skeleton[..self.skeleton_count.min(MOST_KEYS)],
            points: &self.points[..self.points_count.min(MOST_POINT_NUMBERS)],
        }
    }
}
