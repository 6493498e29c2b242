// Asking a service and printing its answer behind a label.
ghost use Rattle.poly.specs.QuotientCall.{QuotientRecord, quotient_call, quotient_result, Quotient};
ghost use Rattle.divisor.specs.declared.CandidateRecord.{CandidateRecord};
ghost use Rattle.divisor.specs.Candidate.{call_of, candidate_result, Candidate};

use crate::lists::MODULUS;
use console::print;
use divisor::MOST_STEPS;
use field::{Case, Element, Fault, KeyBits, MOST_KEYS, Residue, Term};
use poly::rooms::WORK_ROOM;
use std::io;

fn print_label(rt: &impl Print, label: &str) -> io::Result<()> {
    print!(rt; "{label}: ")
}

// The numbers of a record, and the terms.
fn print_found(rt: &impl Print, label: &str, numbers: &[usize], terms: &[Term]) -> io::Result<()> {
    print_label(rt, label)?;
    print::line(rt, numbers)?;
    print::terms(rt, terms)
}

// The candidate of a row, with the programs' ceiling.
pub(crate) fn candidate(
    rt: &impl Print,
    label: &str,
    modulus: Residue,
    first: &[Term],
    second: &[Term],
    skeleton: &[KeyBits],
    points: &[Residue],
) -> io::Result<()> {
    let case = Case {
        modulus,
        first,
        second,
        skeleton,
        points,
    };
    candidate_under(rt, label, &case, MOST_STEPS)
}

// The candidate in rooms that are long enough.
pub(crate) fn candidate_under(
    rt: &impl Print,
    label: &str,
    case: &Case<'_>,
    ceiling: usize,
) -> io::Result<()> {
    let mut out = [0; MOST_KEYS];
    let mut work = [0; WORK_ROOM];
    candidate_in(rt, label, case, ceiling, &mut out, &mut work)
}

// The candidate in rooms of the caller's, which are left as the service leaves them.
pub(crate) fn candidate_in(
    rt: &impl Print,
    label: &str,
    case: &Case<'_>,
    ceiling: usize,
    out: &mut [Term],
    work: &mut [Residue],
) -> io::Result<()>
    ensures { (found : CandidateRecord) × Candidate (call_of case.now ceiling out.old work.old)
        (candidate_result found out.new work.new) }
{
    let found = divisor::candidate(case, ceiling, out, work);
    let number = found.fault.number as usize;
    let list = found.fault.list as usize;
    let terms = found.terms;
    let numbers = [
        number,
        list,
        found.fault.place,
        found.degree,
        found.bad,
        found.unlucky,
        found.kept,
        terms,
        found.steps,
    ];
    print_found(rt, label, &numbers, &out[..terms])
}

// Number, list and place of what is refused, or zeros; and how many terms there are, 0 on refusal.
fn told(found: Result<usize, Fault>) -> [usize; 4] {
    match found {
        Ok(terms) => [0, 0, 0, terms],
        Err(fault) => [fault.number as usize, fault.list as usize, fault.place, 0],
    }
}

// The quotient, in rooms that are left as the service leaves them.
pub(crate) fn quotient(
    rt: &impl Print,
    label: &str,
    first: &[Term],
    second: &[Term],
    out: &mut [Term],
    work: &mut [Residue],
) -> io::Result<()>
    ensures { (found : QuotientRecord) × Quotient (quotient_call 17 first.now second.now out.old
        work.old) (quotient_result found out.new work.new) }
{
    let found = poly::quotient::quotient(MODULUS, first, second, out, work);
    let terms = found.unwrap_or(0);
    print_found(rt, label, &told(found), &out[..terms])
}

pub(crate) fn image(
    rt: &impl Print,
    label: &str,
    first: &[Term],
    second: &[Term],
    point: &[Residue],
) -> io::Result<()> {
    print_label(rt, label)?;
    print::image(rt, poly::image::image(MODULUS, first, second, point))
}

// Number, list, place, modulus, value; on refusal the first operand's modulus, and 0.
pub(crate) fn arithmetic(
    rt: &impl Print,
    label: &str,
    modulus: Residue,
    found: Result<Element, Fault>,
) -> io::Result<()> {
    print_label(rt, label)?;
    match found {
        Ok(outcome) => print::line(
            rt,
            &[0, 0, 0, outcome.modulus as usize, outcome.value as usize],
        ),
        Err(fault) => {
            let number = fault.number as usize;
            let list = fault.list as usize;
            print::line(rt, &[number, list, fault.place, modulus as usize, 0])
        }
    }
}

// Number and place of what a check refuses, or zeros.
fn print_check(rt: &impl Print, checked: Result<(), Fault>) -> io::Result<()> {
    match checked {
        Ok(()) => print::fault(rt, Fault::none()),
        Err(fault) => print::fault(rt, fault),
    }
}

// What the list check says, and the terms of the leading part.
pub(crate) fn leading_part(rt: &impl Print, label: &str, terms: &[Term]) -> io::Result<()> {
    print_label(rt, label)?;
    print_check(rt, poly::list::check_list(terms))?;
    print::terms(rt, poly::list::leading_part(terms))
}

// What the check of two lists says, and the terms of their shorter leading part.
pub(crate) fn shorter_part<'a>(
    rt: &impl Print,
    label: &str,
    first: &'a [Term],
    second: &'a [Term],
) -> io::Result<()> {
    print_label(rt, label)?;
    print_check(rt, poly::list::check_lists(first, second))?;
    print::terms(rt, poly::list::shorter_part(first, second))
}
