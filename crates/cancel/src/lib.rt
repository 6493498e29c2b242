// The Cancel key: a numerator and a denominator without the common divisor that the candidate finds.
#![tactic(auto)]

ghost use Rattle.std.specs.Prelude.{◌≡◌};
ghost use Rattle.cancel.specs.CancelCall.{call_of, cancel_result, with_both, Cancel};
ghost use Rattle.cancel.specs.Cancelling.Model.{RoomFor, CanReduce, TwoQuotients};

use divisor::CandidateRecord;
use field::{Case, Fault, MOST_KEYS, Residue, Term};
use poly::rooms::CELLS;

mod scaling;

// The candidate's record, with the counts of the terms of both results in place of one. The steps are those of the candidate's divisions.
// A record and no Result: what stands beside the fault is told with the numbers 12 to 15 and 18 too. The theorem `cancel_determined` speaks of it.
#[derive(Clone, Copy)]
pub struct CancelRecord {
    pub fault: Fault,
    pub degree: usize,
    pub bad: usize,
    pub unlucky: usize,
    pub kept: usize,
    pub numerator: usize,
    pub denominator: usize,
    pub steps: usize,
}

impl CancelRecord {
    // Both counts in place of one.
    fn with_both(found: CandidateRecord, numerator: usize, denominator: usize) -> CancelRecord
        ensures { result ≡ with_both found numerator denominator }
    {
        CancelRecord {
            fault: found.fault,
            degree: found.degree,
            bad: found.bad,
            unlucky: found.unlucky,
            kept: found.kept,
            numerator,
            denominator,
            steps: found.steps,
        }
    }
}

// How much room the candidate is lent for its divisor: none where an output is too short, which it then refuses with 10, behind 1 to 9 and before 11.
fn room_for_divisor(numerator: usize, denominator: usize) -> usize
    ensures { RoomFor numerator denominator result }
{
    if numerator < CELLS {
        return 0;
    }
    if denominator < CELLS {
        return 0;
    }
    MOST_KEYS
}

// Both lists over the divisor times the denominator's leading coefficient. The divisor is monic, so the second quotient has the leading coefficient 1,
// and no quotient has to be scaled. Neither is refused: the candidate has divided both lists by the divisor.
fn reduce(
    case: &Case<'_>,
    found: CandidateRecord,
    divisor: &mut [Term],
    numerator_out: &mut [Term],
    denominator_out: &mut [Term],
    work: &mut [Residue],
) -> CancelRecord
    requires { CanReduce case.now.modulus case.now.second.now }
    ensures { TwoQuotients case.now.modulus case.now.first.now case.now.second.now divisor.old divisor.new
        numerator_out.old numerator_out.new denominator_out.old denominator_out.new
        work.old work.new found result }
{
    let p = case.modulus;
    let lead = poly::key::coefficient_of(case.second[0]);
    scaling::scale(p, lead, divisor);
    let first = poly::quotient::quotient(p, case.first, divisor, numerator_out, work);
    let second = poly::quotient::quotient(p, case.second, divisor, denominator_out, work);
    CancelRecord::with_both(found, first.unwrap_or(0), second.unwrap_or(0))
}

// The numerator and the denominator, which are the case's two lists, without their common divisor that the candidate finds, by one constant such that
// the denominator is monic; or the candidate's refusal. What is struck out divides both: the candidate has divided, in no more steps than the ceiling.
pub fn cancel(
    case: &Case<'_>,
    ceiling: usize,
    numerator_out: &mut [Term],
    denominator_out: &mut [Term],
    work: &mut [Residue],
) -> CancelRecord
    ensures { Cancel (call_of case.now ceiling numerator_out.old denominator_out.old work.old)
        (cancel_result result numerator_out.new denominator_out.new work.new) }
{
    let mut divisor = [0; MOST_KEYS];
    let room = room_for_divisor(numerator_out.len(), denominator_out.len());
    let found = divisor::candidate(case, ceiling, &mut divisor[..room], work);
    if found.fault.number != 0 {
        return CancelRecord::with_both(found, 0, 0);
    }
    reduce(
        case,
        found,
        &mut divisor[..found.terms],
        numerator_out,
        denominator_out,
        work,
    )
}
