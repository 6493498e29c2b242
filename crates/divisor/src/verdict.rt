// What the solution of the equations settles: a refusal, or a divisor that divides both inputs, written into the output.
ghost use Rattle.std.specs.Prelude.{◌≡◌, ◌≤◌, ◌<◌, length, IfErr, Err};
ghost use Rattle.field.specs.Lent.{written};
ghost use Rattle.poly.specs.Room.{work_room};
ghost use Rattle.poly.specs.TrialDivision.{trial};
ghost use Rattle.divisor.specs.Verdict.Model.{CanDivideBoth, BothDivided, Refused, VerdictReady, Settled, ruling};

use crate::table::{Cells, Solution};
use field::{Case, Fault, RefusalNumber, Residue, Term};
use poly::Stopped;
use poly::rooms::WORK_ROOM;

// What is accepted: how many terms are written, and the steps of division taken.
#[derive(Clone, Copy)]
pub(crate) struct Accepted {
    pub terms: usize,
    pub steps: usize,
}

// Whether the divisor divides both lists, under one ceiling on the steps of both divisions. The work room is left cleared.
fn divides_both(
    case: &Case<'_>,
    divisor: &[Term],
    ceiling: usize,
    work: &mut [Residue],
) -> Result<usize, Stopped>
    requires { CanDivideBoth case.now.modulus case.now.first.now case.now.second.now divisor.now work.old }
    ensures divided { BothDivided case.now.modulus case.now.first.now case.now.second.now divisor.now ceiling work.old
        work.new (trial result) }
    ensures numbered { IfErr result (λ s. 0 < s.number) }
{
    let p = case.modulus;
    let one = poly::division::divides(p, case.first, divisor, ceiling, work)?;
    match poly::division::divides(p, case.second, divisor, ceiling - one, work) {
        Ok(other) => Ok(one + other),
        Err(stopped) => Err(Stopped {
            number: stopped.number,
            steps: one + stopped.steps,
        }),
    }
}

// The terms first in the output. Nothing else writes there.
fn write(terms: &[Term], output: &mut [Term])
    requires { length terms.now ≤ length output.old }
    ensures { output.new ≡ written terms.now output.old }
{
    output[..terms.len()].copy_from_slice(terms);
}

// A refusal: nothing is written, and the work room is cleared.
fn refused(number: RefusalNumber, work: &mut [Residue]) -> Stopped
    requires { work_room ≤ length work.old }
    ensures { Refused number work.old work.new (ruling (Err result)) }
{
    poly::rooms::clear(WORK_ROOM, work);
    Stopped { number, steps: 0 }
}

// The divisor of the only solution, which is accepted if it divides both lists, whoever proposed it.
fn divided(
    case: &Case<'_>,
    values: Cells,
    ceiling: usize,
    output: &mut [Term],
    work: &mut [Residue],
) -> Result<Accepted, Stopped>
    requires { VerdictReady case.now.modulus case.now.first.now case.now.second.now case.now.skeleton.now (Solution.One values) output.old work.old }
    ensures { Settled case.now.modulus case.now.first.now case.now.second.now case.now.skeleton.now (Solution.One values) ceiling
        output.old output.new work.old work.new (ruling result) }
{
    let divisor = crate::monic::made_monic(case.modulus, case.skeleton, &values);
    let list = divisor.list();
    let steps = divides_both(case, list, ceiling, work)?;
    write(list, output);
    Ok(Accepted {
        terms: list.len(),
        steps,
    })
}

// What the solution of the equations brings about: the terms that are written, or a number.
pub(crate) fn settle(
    case: &Case<'_>,
    solved: Solution,
    ceiling: usize,
    output: &mut [Term],
    work: &mut [Residue],
) -> Result<Accepted, Stopped>
    requires { VerdictReady case.now.modulus case.now.first.now case.now.second.now case.now.skeleton.now solved output.old work.old }
    ensures { Settled case.now.modulus case.now.first.now case.now.second.now case.now.skeleton.now solved ceiling output.old
        output.new work.old work.new (ruling result) }
{
    match solved {
        Solution::None => Err(refused(Fault::NO_SOLUTION, work)),
        Solution::Several => Err(refused(Fault::SEVERAL_SOLUTIONS, work)),
        Solution::One(values) => divided(case, values, ceiling, output, work),
    }
}
