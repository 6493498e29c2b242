// The candidate of a case file.
ghost use Rattle.divisor.specs.Candidate.{candidate_result};
ghost use Rattle.console.specs.CandidateOfFile.{CandidateAnswered};

use crate::print;
use divisor::{CandidateRecord, MOST_STEPS};
use field::{Residue, Term};
use poly::rooms::WORK_ROOM;
use std::io;

// Reads the case and asks for its candidate, with a ceiling that two divisions never pass.
pub fn candidate_of(bytes: &[u8], out: &mut [Term], work: &mut [Residue]) -> CandidateRecord
    ensures { CandidateAnswered out.old work.old bytes.now (candidate_result result out.new work.new) }
{
    match case_file::read(bytes) {
        Ok(contents) => divisor::candidate(&contents.case(), MOST_STEPS, out, work),
        Err(fault) => CandidateRecord::refused(fault),
    }
}

// Prints what is found: the first line, and a line for each term.
pub fn print_candidate_of(rt: &impl Print, bytes: &[u8]) -> io::Result<()> {
    let mut out = [0; field::MOST_KEYS];
    let mut work = [0; WORK_ROOM];
    let found = candidate_of(bytes, &mut out, &mut work);
    let terms = found.terms;
    print::candidate(rt, found)?;
    print::terms(rt, &out[..terms])
}
