// What the programs share: the case file on standard input, the candidate of a case file, and the lines that are printed.
#![tactic(auto)]

pub mod answer;
pub mod input;
pub mod print;
