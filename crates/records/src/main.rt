// Reads a case file from standard input and prints each of its records on a line: kind, then its numbers, a term as coefficient and key. A refusal of
// the reader is number and place on one line, and nothing else is printed.
#![tactic(auto)]

use case_file::Kind;
use console::{input, print};
use field::{COORDINATES, Case, KeyBits, Residue, Term};
use poly::key::Key;
use std::io;

fn print_terms(rt: &impl Print, kind: Kind, list: &[Term]) -> io::Result<()> {
    for &t in list {
        let key = Key::of(t).bits as usize;
        let coefficient = poly::key::coefficient_of(t) as usize;
        print::line(rt, &[kind as usize, coefficient, key])?;
    }
    Ok(())
}

fn print_keys(rt: &impl Print, list: &[KeyBits]) -> io::Result<()> {
    for &key in list {
        print::line(rt, &[Kind::Skeleton as usize, key as usize])?;
    }
    Ok(())
}

fn print_points(rt: &impl Print, numbers: &[Residue]) -> io::Result<()> {
    for point in numbers.chunks_exact(COORDINATES) {
        let [y, z, w] = [point[0] as usize, point[1] as usize, point[2] as usize];
        print::line(rt, &[Kind::Point as usize, y, z, w])?;
    }
    Ok(())
}

fn print_records(rt: &impl Print, case: &Case<'_>) -> io::Result<()> {
    print::line(rt, &[Kind::Modulus as usize, case.modulus as usize])?;
    print_terms(rt, Kind::First, case.first)?;
    print_terms(rt, Kind::Second, case.second)?;
    print_keys(rt, case.skeleton)?;
    print_points(rt, case.points)?;
    print::line(rt, &[Kind::End as usize])
}

fn main(rt: HostRuntime) -> io::Result<()> {
    let mut bytes = [0; input::ENOUGH];
    let n = input::read_file(&rt, &mut bytes)?;
    match case_file::read(&bytes[..n]) {
        Ok(contents) => print_records(&rt, &contents.case()),
        Err(fault) => print::fault(&rt, fault),
    }
}
