// Lines on standard output: numbers with a space between two.
ghost use Rattle.std.specs.Prelude.{Some};
ghost use Rattle.console.specs.Printed.{spaced};

use divisor::CandidateRecord;
use field::{Fault, Term};
use poly::MonicImage;
use poly::key::Key;
use std::{fmt, io};

// The numbers of a line.
#[derive(Drop)]
struct Numbers<'a>(&'a [usize]);

impl fmt::Display for Numbers<'_> {
    ghost output = { λ s. Some (spaced s.0.now) };

    fn fmt<W: fmt::Write>(&self, f: &mut fmt::Formatter<W>) -> fmt::Result {
        let [first, rest @ ..] = self.0 else {
            return Ok(());
        };
        write!(f, "{first}")?;
        for number in rest {
            write!(f, " {number}")?;
        }
        Ok(())
    }
}

pub fn line(rt: &impl Print, numbers: &[usize]) -> io::Result<()> {
    rt.println(Numbers(numbers))
}

// Number and place: a refusal, as every program but `candidate` prints it.
pub fn fault(rt: &impl Print, f: Fault) -> io::Result<()> {
    line(rt, &[f.number as usize, f.place])
}

// The coefficient, then the exponents of x, y, z, w.
fn term(rt: &impl Print, t: Term) -> io::Result<()> {
    let key = Key::of(t);
    line(
        rt,
        &[
            poly::key::coefficient_of(t) as usize,
            key.x() as usize,
            key.y() as usize,
            key.z() as usize,
            key.w() as usize,
        ],
    )
}

pub fn terms(rt: &impl Print, list: &[Term]) -> io::Result<()> {
    for t in list {
        term(rt, *t)?;
    }
    Ok(())
}

// Number, list, place, d, bad, unlucky, kept.
pub fn candidate(rt: &impl Print, r: CandidateRecord) -> io::Result<()> {
    line(
        rt,
        &[
            r.fault.number as usize,
            r.fault.list as usize,
            r.fault.place,
            r.degree,
            r.bad,
            r.unlucky,
            r.kept,
        ],
    )
}

// Number and place, both 0, degree, and the eight coefficients.
fn coefficients(rt: &impl Print, r: MonicImage) -> io::Result<()> {
    let u = r.coefficients;
    line(
        rt,
        &[
            0,
            0,
            r.degree,
            u[0] as usize,
            u[1] as usize,
            u[2] as usize,
            u[3] as usize,
            u[4] as usize,
            u[5] as usize,
            u[6] as usize,
            u[7] as usize,
        ],
    )
}

// An image, or a refusal as number and place.
pub fn image(rt: &impl Print, found: Result<MonicImage, Fault>) -> io::Result<()> {
    match found {
        Ok(seen) => coefficients(rt, seen),
        Err(refused) => fault(rt, refused),
    }
}
