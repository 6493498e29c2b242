// Reads a case file from standard input and prints a line for each of its points: number, place, degree and the eight coefficients of the image,
// or number and place of the refusal. A case without points is answered by one line: what the service refuses an empty point with.
#![tactic(auto)]

use console::{input, print};
use field::{COORDINATES, Case};
use std::io;

fn print_images(rt: &impl Print, case: &Case<'_>) -> io::Result<()> {
    let p = case.modulus;
    if case.points.is_empty() {
        let found = poly::image::image(p, case.first, case.second, case.points);
        print::image(rt, found)?;
    }
    for point in case.points.chunks_exact(COORDINATES) {
        let found = poly::image::image(p, case.first, case.second, point);
        print::image(rt, found)?;
    }
    Ok(())
}

fn main(rt: HostRuntime) -> io::Result<()> {
    let mut bytes = [0; input::ENOUGH];
    let n = input::read_file(&rt, &mut bytes)?;
    match case_file::read(&bytes[..n]) {
        Ok(contents) => print_images(&rt, &contents.case()),
        Err(fault) => print::fault(&rt, fault),
    }
}
