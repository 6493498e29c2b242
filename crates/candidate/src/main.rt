// Reads a case file from standard input and prints its candidate.
#![tactic(auto)]

use console::{answer, input};
use std::io;

fn main(rt: HostRuntime) -> io::Result<()> {
    let mut bytes = [0; input::ENOUGH];
    let n = input::read_file(&rt, &mut bytes)?;
    answer::print_candidate_of(&rt, &bytes[..n])
}
