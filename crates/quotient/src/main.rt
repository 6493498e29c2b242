// Reads a case file from standard input and prints A over B: `0 0` and a line for each term, or number and place.
#![tactic(auto)]

ghost use Rattle.field.specs.Refusal.{StandsFor};
ghost use Rattle.poly.specs.QuotientCall.{refused_quotient, found_quotient, quotient_result};
ghost use Rattle.quotient.specs.QuotientOfFile.{QuotientAnswered};

use console::{input, print};
use field::{Fault, Residue, Term};
use poly::rooms::{CELLS, WORK_ROOM};
use std::io;

// Reads the case and asks for its quotient: how many terms it has, or a refusal.
fn quotient_of(bytes: &[u8], out: &mut [Term], work: &mut [Residue]) -> Result<usize, Fault>
    ensures { StandsFor refused_quotient found_quotient
        (λ r. QuotientAnswered out.old work.old bytes.now (quotient_result r out.new work.new)) result }
{
    let contents = case_file::read(bytes)?;
    let case = contents.case();
    poly::quotient::quotient(case.modulus, case.first, case.second, out, work)
}

fn main(rt: HostRuntime) -> io::Result<()> {
    let mut bytes = [0; input::ENOUGH];
    let n = input::read_file(&rt, &mut bytes)?;
    let mut out = [0; CELLS];
    let mut work = [0; WORK_ROOM];
    match quotient_of(&bytes[..n], &mut out, &mut work) {
        Ok(terms) => {
            print::fault(&rt, Fault::none())?;
            print::terms(&rt, &out[..terms])
        }
        Err(fault) => print::fault(&rt, fault),
    }
}
