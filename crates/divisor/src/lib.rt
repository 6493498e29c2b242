// Layer 3, the candidate: the common divisor that images and equations fix, or a refusal.
#![tactic(auto)]

ghost use Rattle.std.specs.Prelude.{◌≡◌, ◌≤◌, length};
ghost use Rattle.divisor.specs.Candidate.{call_of, candidate_result, refused_record, table as table_of, Candidate};
ghost use Rattle.divisor.specs.Verdict.Model.{NoGoodPoint};
ghost use Rattle.field.specs.Refusal.{Passes};
ghost use Rattle.poly.specs.Room.{work_room};

use field::{COORDINATES, Case, Fault, Residue, Term};
use poly::rooms::{CELLS, WORK_ROOM};

mod checks;
mod equations;
mod monic;
mod points;
mod sorting;
mod table;
mod verdict;

// Two divisions never take more steps: each has at most one for each key. A call with this ceiling is never refused for it.
pub const MOST_STEPS: usize = 2 * CELLS;

// Number, list and place, the least degree of an image, the numbers of bad, unlucky and kept points, the count of terms, and the steps of division taken.
// A record and no Result: what stands beside the fault is told with the numbers 12 to 15 and 18 too. The theorem `candidate_determined` speaks of it.
#[derive(Clone, Copy)]
pub struct CandidateRecord {
    pub fault: Fault,
    pub degree: usize,
    pub bad: usize,
    pub unlucky: usize,
    pub kept: usize,
    pub terms: usize,
    pub steps: usize,
}

impl CandidateRecord {
    // A refusal: zeros beside the fault.
    pub fn refused(fault: Fault) -> CandidateRecord
        ensures { result ≡ refused_record fault }
    {
        CandidateRecord {
            fault,
            degree: 0,
            bad: 0,
            unlucky: 0,
            kept: 0,
            terms: 0,
            steps: 0,
        }
    }
}

// 12: no point of n is good. The work room is cleared.
fn no_good_point(n: usize, work: &mut [Residue]) -> CandidateRecord
    requires { work_room ≤ length work.old }
    ensures { NoGoodPoint n work.old work.new result }
{
    poly::rooms::clear(WORK_ROOM, work);
    CandidateRecord {
        bad: n,
        ..CandidateRecord::refused(Fault::at(Fault::NO_GOOD_POINT, 0))
    }
}

// The answer to inputs that pass: the points sorted by their images, the equations of those kept, and the verdict on their solution.
fn answer(
    case: &Case<'_>,
    ceiling: usize,
    out: &mut [Term],
    work: &mut [Residue],
) -> CandidateRecord
    requires { Passes (table_of (call_of case.now ceiling out.old work.old)) }
    ensures { Candidate (call_of case.now ceiling out.old work.old) (candidate_result result out.new work.new) }
{
    let n = case.points.len() / COORDINATES;
    let looked = points::look(case, work);
    let sizes = &looked[..n];
    let least = sorting::least_size(sizes);
    if least == 0 {
        return no_good_point(n, work);
    }
    let bad = sorting::alike(sizes, 0);
    let kept = sorting::alike(sizes, least);
    let places = sorting::places_of(sizes, least);
    let solved = equations::solved(case, &places[..kept], work);
    let sorted = CandidateRecord {
        fault: Fault::none(),
        degree: least as usize - 1,
        bad,
        unlucky: n - bad - kept,
        kept,
        terms: 0,
        steps: 0,
    };
    match verdict::settle(case, solved, ceiling, out, work) {
        Ok(found) => CandidateRecord {
            terms: found.terms,
            steps: found.steps,
            ..sorted
        },
        Err(stopped) => CandidateRecord {
            fault: Fault::at(stopped.number, 0),
            steps: stopped.steps,
            ..sorted
        },
    }
}

// The common divisor of two lists that the equations of the kept points fix, in proposed monomials; or a refusal. Nothing that is proposed is trusted.
// Its two trial divisions take no more steps together than the ceiling, which may be any number.
pub fn candidate(
    case: &Case<'_>,
    ceiling: usize,
    out: &mut [Term],
    work: &mut [Residue],
) -> CandidateRecord
    ensures { Candidate (call_of case.now ceiling out.old work.old) (candidate_result result out.new work.new) }
{
    match checks::check_call(case, out.len(), work.len()) {
        Err(fault) => CandidateRecord::refused(fault),
        Ok(()) => answer(case, ceiling, out, work),
    }
}
